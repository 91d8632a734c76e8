// A box mended: the entries that obey the rules in a deck without gaps, and a list with a line for each entry (document 02, 2026-09).
#![tactic(auto)]

ghost use Rattle.std.specs.Prelude.{◌≡◌, length};
ghost use Rattle.card.specs.Limits.{most_cards};
ghost use Rattle.entry.specs.Contract.{two};
ghost use Rattle.deck.specs.Contents.{count_of};
ghost use Rattle.deck_entries.specs.Rows.{row_by};
ghost use Rattle.deck.specs.Sound.{Head};
ghost use Rattle.reading.specs.Reading.{read_of};
ghost use Rattle.mending.specs.Mending.{is_taken, fate_of as fate_of_said};
ghost use Rattle.mending.specs.FateBy.{fate_by};
ghost use Rattle.mended_rooms.specs.Mends.{Mends};
ghost use Rattle.mend.specs.Fated.{Fated};

use card::Refusal;
use card::limits::{BRANCH_PLACES, COUNT_BYTES, ENTRY_BYTES, MOST_CARDS, NODE_PLACES, ROW_PLACES};
use deck_entries::{Entry, malformed};
use mended_rooms::store_mended;
use mending::Rule;
use mending_walk::{Walk, head_count};
use reader::read_into;

// Is the card accepted?
fn accepted(card: &[u8]) -> bool
    ensures { result ≡ is_taken (read_of card.now) }
{
    let mut rows: [usize; ROW_PLACES] = [0; ROW_PLACES];
    let mut nodes: [u32; NODE_PLACES] = [0; NODE_PLACES];
    let mut branches: [u32; BRANCH_PLACES] = [0; BRANCH_PLACES];
    read_into(card, &mut rows, &mut nodes, &mut branches).is_ok()
}

// The first rule that an entry breaks, or none if it is kept. Its card is read only if it is live and breaks none of the others.
fn fate_of(deck: &[u8], entry: Entry, walk: Walk) -> Option<Rule>
    ensures { fate_by result ≡ fate_of_said deck.now walk.least walk.last (row_by entry) }
{
    let rule = walk.broken_rule(entry, deck.len());
    if rule.is_some() {
        return rule;
    }
    if entry.flag == 0 {
        return None;
    }
    let offset = entry.offset as usize;
    let end = entry.end();
    if accepted(&deck[offset..end]) {
        return None;
    }
    Some(Rule::Card)
}

// The fate of each of the `count` entries: the first rule that it breaks, or none if it is kept.
fn fates_into(deck: &[u8], count: usize, fates: &mut [Option<Rule>; MOST_CARDS]) -> Walk
    requires head { Head deck.now }
    requires count_value { count ≡ count_of deck.now }
    requires fates_len { length fates.old ≡ most_cards }
    ensures { Fated deck.now fates.old fates.new result }
{
    let mut walk = Walk::before(count);
    for i in 0..count {
        let entry = Entry::at(deck, COUNT_BYTES + ENTRY_BYTES * i);
        let fate = fate_of(deck, entry, walk);
        fates[i] = fate;
        walk = walk.behind(entry, fate);
    }
    walk
}

// The head is judged first, then what is kept, then the deck's room, then the list's.
pub fn mend(deck: &[u8], room: &mut [u8], list: &mut [u8]) -> Result<(usize, usize), Refusal>
    ensures { Mends (two room.old list.old) (two room.new list.new) deck.now result }
{
    let Some(count) = head_count(deck) else {
        return Err(malformed(0));
    };
    let mut fates: [Option<Rule>; MOST_CARDS] = [None; MOST_CARDS];
    let walk = fates_into(deck, count, &mut fates);
    store_mended(deck, &fates[..count], walk.cards, walk.bytes, room, list)
}
