// An entry of a deck's contents, from its bytes (document 02, 2026-02).
#![tactic(auto)]

ghost use Rattle.std.specs.Prelude.{◌≡◌, ◌+◌, ◌≤◌, ◌<◌, length, drop};
ghost use Rattle.card.specs.Limits.{entry_bytes, word_numbers};
ghost use Rattle.card.specs.Refusals.{malformed_deck};
ghost use Rattle.card.specs.Verdict.{refusal_at};
ghost use Rattle.deck.specs.Contents.{word_at, row_of, end_of, row_said};
ghost use Rattle.deck_entries.specs.Rows.{row_by};
ghost use Rattle.deck_entries.specs.Verdicts.{verdict_of};

use card::Refusal;
use card::limits::{FLAG_AT, OFFSET_AT, SIZE_AT, ZERO_BYTE_AT};
use card::refusals::MALFORMED_DECK;

// A byte has so many values.
pub const BYTE_VALUES: usize = 256;

pub fn wide(b: u8) -> usize
    ensures { (result ≡ b) × (result ≤ 255) }
{
    b as usize
}

// The number of two bytes at a place, low byte first.
pub fn word_at(deck: &[u8], at: usize) -> usize
    requires { at + 2 ≤ length deck.now }
    ensures { (result ≡ word_at deck.now at) × (result < word_numbers) }
{
    let lo = deck[at] as usize;
    let hi = deck[at + 1] as usize;
    lo + BYTE_VALUES * hi
}

// A deck is refused at a place.
pub fn malformed(place: usize) -> Refusal
    ensures { result ≡ refusal_at malformed_deck place }
{
    Refusal {
        number: MALFORMED_DECK,
        place,
    }
}

// The fields of an entry's eight bytes.
#[derive(Clone, Copy)]
pub struct Entry {
    pub number: u16,
    pub offset: u16,
    pub size: u16,
    pub flag: u8,
    pub zero: u8,
}

impl Entry {
    // The entry at a place.
    pub fn at(deck: &[u8], at: usize) -> Entry
        requires { at + entry_bytes ≤ length deck.now }
        ensures { row_by result ≡ row_of (drop at deck.now) }
    {
        Entry {
            number: word_at(deck, at) as u16,
            offset: word_at(deck, at + OFFSET_AT) as u16,
            size: word_at(deck, at + SIZE_AT) as u16,
            flag: deck[at + FLAG_AT],
            zero: deck[at + ZERO_BYTE_AT],
        }
    }

    // The first byte behind its body.
    pub fn end(self) -> usize
        ensures { result ≡ end_of (row_by self) }
    {
        self.offset as usize + self.size as usize
    }

    // Standing at `at` in a deck of `long` bytes: its number is at least `least`, its body starts at `last` at the earliest.
    pub fn judge(self, long: usize, at: usize, least: usize, last: usize) -> Result<(), Refusal>
        requires { at + entry_bytes ≤ long }
        ensures { result ≡ verdict_of (row_said long at least last (row_by self)) }
    {
        if (self.number as usize) < least {
            return Err(malformed(at));
        }
        if (self.offset as usize) < last {
            return Err(malformed(at + OFFSET_AT));
        }
        if long < self.end() {
            return Err(malformed(at + SIZE_AT));
        }
        if 1 < self.flag {
            return Err(malformed(at + FLAG_AT));
        }
        if self.zero != 0 {
            return Err(malformed(at + ZERO_BYTE_AT));
        }
        Ok(())
    }
}
