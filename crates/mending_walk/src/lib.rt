// What mending sees without reading a card (document 02, 2026-09): the head of a deck, how far it has come from entry to entry, and which rules of the contents an entry breaks.
#![tactic(auto)]

ghost use Rattle.mending_walk.specs.Headed.{Headed};
ghost use Rattle.std.specs.Prelude.{◌≡◌, ◌≤◌};
ghost use Rattle.card.specs.Limits.{most_cards};
ghost use Rattle.deck_entries.specs.Rows.{row_by};
ghost use Rattle.mending_walk.specs.Walking.{walk_before, walked_by, Roomy};
ghost use Rattle.mending.specs.Mending.{kept, by_contents};
ghost use Rattle.mending.specs.FateBy.{fate_by};

use card::limits::{COUNT_BYTES, DECK_BYTES, ENTRY_BYTES, MOST_CARDS};
use deck_entries::Entry;
use mending::Rule;

// How many entries the contents have, if the head is right.
pub fn head_count(deck: &[u8]) -> Option<usize>
    ensures { Headed deck.now result }
{
    if DECK_BYTES < deck.len() || deck.len() == 0 {
        return None;
    }
    let count = deck[0] as usize;
    if count == 0 || MOST_CARDS < count || deck.len() < COUNT_BYTES + ENTRY_BYTES * count {
        return None;
    }
    Some(count)
}

// The next number is at least `least`, the next body starts at `last` at the earliest; so many entries are kept, and their bodies have so many bytes.
#[derive(Clone, Copy)]
pub struct Walk {
    pub least: usize,
    pub last: usize,
    pub cards: usize,
    pub bytes: usize,
}

impl Walk {
    // Before the first entry: any number rises, and a body starts behind the contents, which have so many entries.
    pub fn before(count: usize) -> Walk
        requires { count ≤ most_cards }
        ensures { result ≡ walk_before count }
    {
        Walk {
            least: 0,
            last: COUNT_BYTES + ENTRY_BYTES * count,
            cards: 0,
            bytes: 0,
        }
    }

    // Behind an entry, whose fate is the first rule that it breaks, or none if it is kept.
    pub fn behind(self, entry: Entry, fate: Option<Rule>) -> Walk
        requires { Roomy self }
        ensures { result ≡ walked_by (fate_by fate) (row_by entry) self }
    {
        let above = entry.number as usize + 1;
        let end = entry.end();
        match fate {
            Some(_) => Walk {
                least: self.least,
                last: self.last,
                ..self
            },
            None => Walk {
                least: above,
                last: end,
                cards: self.cards + 1,
                bytes: self.bytes + entry.size as usize,
            },
        }
    }

    // The first rule that an entry breaks in a deck of `long` bytes, if it breaks one. Its card is not read.
    pub fn broken_rule(self, entry: Entry, long: usize) -> Option<Rule>
        ensures { fate_by result ≡ by_contents long self.least self.last (row_by entry) kept }
    {
        if 1 < entry.flag || entry.zero != 0 {
            return Some(Rule::Flags);
        }
        if (entry.number as usize) < self.least {
            return Some(Rule::Number);
        }
        if (entry.offset as usize) < self.last {
            return Some(Rule::Range);
        }
        if entry.end() <= long {
            return None;
        }
        Some(Rule::Range)
    }
}
