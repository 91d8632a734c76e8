// A deck judged by its contents, and cards looked up in a box, alone or with an expansion (document 02, 2026-02). Only the contents are read, and no card.
#![tactic(auto)]

ghost use Rattle.std.specs.Prelude.{◌≡◌, ◌+◌, ◌≤◌, length, drop};
ghost use Rattle.deck.specs.Contents.{judged, row_of, contents_of};
ghost use Rattle.deck_entries.specs.Verdicts.{verdict_of};
ghost use Rattle.card.specs.Limits.{entry_bytes};
ghost use Rattle.deck.specs.Lookup.{is_live as is_live_said, part_for, live_row, located, located_with};
ghost use Rattle.entry.specs.Said.{saying};
ghost use Rattle.deck.specs.Sound.{Head};
ghost use Rattle.boxes.specs.Boxes.{placed};

use card::Refusal;
use card::limits::{COUNT_BYTES, DECK_BYTES, ENTRY_BYTES, EXPANSION_FROM, MOST_CARDS};
use card::refusals::NO_LIVE_CARD;
use deck_entries::{Entry, malformed};

// Is it a deck? The first wrong field in the order of the bytes decides.
pub fn judge_deck(deck: &[u8]) -> Result<(), Refusal>
    ensures { result ≡ verdict_of (judged deck.now) }
{
    if DECK_BYTES < deck.len() || deck.len() == 0 {
        return Err(malformed(0));
    }
    let count = deck[0] as usize;
    if count == 0 || MOST_CARDS < count || deck.len() < COUNT_BYTES + ENTRY_BYTES * count {
        return Err(malformed(0));
    }
    let mut least: usize = 0;
    let mut last = COUNT_BYTES + ENTRY_BYTES * count;
    for i in 0..count {
        let at = COUNT_BYTES + ENTRY_BYTES * i;
        let entry = Entry::at(deck, at);
        entry.judge(deck.len(), at, least, last)?;
        least = entry.number as usize + 1;
        last = entry.end();
    }
    Ok(())
}

// Is the entry at a place live, and has it this number?
pub fn is_live(deck: &[u8], at: usize, number: usize) -> bool
    requires { at + entry_bytes ≤ length deck.now }
    ensures { result ≡ is_live_said number (row_of (drop at deck.now)) }
{
    let entry = Entry::at(deck, at);
    entry.number as usize == number && entry.flag == 1
}

// Where a card stands: 0 in the base or 1 in the expansion (C gets the number as it is), its first byte there, and how many bytes.
#[derive(Clone, Copy)]
pub struct Place {
    pub which: usize,
    pub offset: usize,
    pub size: usize,
}

const BASE: usize = 0;

pub const EXPANSION: usize = 1;

// The live card of a number, entry by entry, in a deck that is taken.
fn seek(deck: &[u8], number: usize, which: usize) -> Result<Place, Refusal>
    requires { Head deck.now }
    ensures { result ≡ placed (saying (part_for which) (live_row number (contents_of deck.now))) }
{
    for i in 0..deck[0] as usize {
        let at = COUNT_BYTES + ENTRY_BYTES * i;
        if is_live(deck, at, number) {
            let entry = Entry::at(deck, at);
            return Ok(Place {
                which,
                offset: entry.offset as usize,
                size: entry.size as usize,
            });
        }
    }
    Err(Refusal {
        number: NO_LIVE_CARD,
        place: 0,
    })
}

// Where a box has a card; or 11, or 12.
pub fn locate(deck: &[u8], number: u16) -> Result<Place, Refusal>
    ensures { result ≡ placed (located deck.now number) }
{
    judge_deck(deck)?;
    seek(deck, number as usize, BASE)
}

// Where a box with an expansion has a card; or 11, the base judged first, or 12.
pub fn locate_with(base: &[u8], expansion: &[u8], number: u16) -> Result<Place, Refusal>
    ensures { result ≡ placed (located_with base.now expansion.now number) }
{
    judge_deck(base)?;
    if let Err(refusal) = judge_deck(expansion) {
        return Err(Refusal {
            number: refusal.number,
            place: refusal.place + EXPANSION_FROM,
        });
    }
    let wanted = number as usize;
    match seek(expansion, wanted, EXPANSION) {
        Ok(place) => Ok(place),
        Err(_) => seek(base, wanted, BASE),
    }
}
