// The live entries of a deck: what each keeps when the deck is tidied, and all of them gathered, within the deck or at
// the front of its contents (document 02, 2026-12).
#![tactic(auto)]

ghost use Rattle.std.specs.Prelude.{◌≡◌, ◌+◌, ◌≤◌, ◌<◌, length, drop};
ghost use Rattle.card.specs.Limits.{entry_bytes, count_bytes, most_cards};
ghost use Rattle.deck.specs.Contents.{row_of, behind};
ghost use Rattle.deck.specs.Sound.{Head};
ghost use Rattle.gathering.specs.LiveRows.{FlaggedSize, Measures};
ghost use Rattle.room.specs.Room.{clip};
ghost use Rattle.gathering.specs.LiveText.{rows_in, rows_stay, bodies_stay, Offsets, Gatherable};
ghost use Rattle.gathering.specs.Kept.{kept_row, kept_rows};

use card::limits::{COUNT_BYTES, ENTRY_BYTES, FLAG_AT, OFFSET_AT, SIZE_AT, ZERO_BYTE_AT};
use deck_entries::word_at;
use deck_writer::put_row;
use shifting::move_down;

// The length of an entry's body, if the entry has this flag: 1 is that of a live entry.
fn flagged_size(deck: &[u8], at: usize, flag: u8) -> Option<usize>
    requires { at + entry_bytes ≤ length deck.now }
    ensures { FlaggedSize flag (row_of (drop at deck.now)) result }
{
    if deck[at + FLAG_AT] != flag {
        return None;
    }
    Some(word_at(deck, at + SIZE_AT))
}

// How many entries are live, and how long their bodies are together.
#[derive(Clone, Copy)]
pub struct Live {
    pub cards: usize,
    pub bytes: usize,
}

pub fn measure_live(deck: &[u8]) -> Live
    requires { Head deck.now }
    ensures { Measures deck.now result }
{
    let mut live = Live { cards: 0, bytes: 0 };
    for i in 0..usize::from(deck[0]) {
        if let Some(size) = flagged_size(deck, COUNT_BYTES + ENTRY_BYTES * i, 1) {
            live.cards += 1;
            live.bytes += size;
        }
    }
    live
}

// The bodies, from the end of the contents on: each moves to where the one before ends, and none before it has been
// read.
pub fn gather_bodies(deck: &mut [u8], count: usize)
    requires { Gatherable deck.old count }
    ensures { deck.new ≡ clip deck.old (behind count) (bodies_stay deck.old (rows_in count deck.old)) }
{
    let mut to = COUNT_BYTES + ENTRY_BYTES * count;
    for i in 0..count {
        let at = COUNT_BYTES + ENTRY_BYTES * i;
        if let Some(size) = flagged_size(deck, at, 1) {
            let offset = word_at(deck, at + OFFSET_AT);
            move_down(deck, offset, to, size);
            to += size;
        }
    }
}

// The entries, from the first one's place on: the first body starts at `first`, each other one where the body before
// ends.
pub fn gather_rows(deck: &mut [u8], count: usize, first: usize)
    requires { Offsets deck.old count first }
    ensures { deck.new ≡ clip deck.old 1 (rows_stay first (rows_in count deck.old)) }
{
    let mut to = COUNT_BYTES;
    let mut offset = first;
    for i in 0..count {
        let from = COUNT_BYTES + ENTRY_BYTES * i;
        if let Some(size) = flagged_size(deck, from, 1) {
            let number = word_at(deck, from);
            let zero = deck[from + ZERO_BYTE_AT];
            to = put_row(deck, to, number, offset, size, 1, zero);
            offset += size;
        }
    }
}

// The entry at `from` put at `to` if it is live, and where the next one goes.
fn keep_row(deck: &mut [u8], from: usize, to: usize) -> usize
    requires to_le_from { to ≤ from }
    requires entry_bytes_in_bounds { from + entry_bytes ≤ length deck.old }
    ensures { (deck.new ≡ clip deck.old to (kept_row (drop from deck.old))) × (result ≡ to + length (kept_row (drop from deck.old))) }
{
    if deck[from + FLAG_AT] != 1 {
        return to;
    }
    move_down(deck, from, to, ENTRY_BYTES);
    to + ENTRY_BYTES
}

// The live entries at the front of the contents, as they stand: from the first one on, none is overwritten before it
// has been read.
pub fn keep_rows(deck: &mut [u8], count: usize)
    requires count_in_bounds { behind count ≤ length deck.old }
    requires count_le_most_cards { count ≤ most_cards }
    ensures { deck.new ≡ clip deck.old count_bytes (kept_rows count (drop count_bytes deck.old)) }
{
    let mut to = COUNT_BYTES;
    for i in 0..count {
        to = keep_row(deck, COUNT_BYTES + ENTRY_BYTES * i, to);
    }
}
