// The contents of a converted deck put into a room, by a note for each entry (document 02, 2026-11).
#![tactic(auto)]

ghost use Rattle.std.specs.Prelude.{◌≡◌, [], ◌+◌, ◌≤◌, ◌<◌, length, drop};
ghost use Rattle.card.specs.Limits.{entry_bytes, word_numbers};
ghost use Rattle.deck.specs.Contents.{row_of, contents_of};
ghost use Rattle.deck.specs.Deck.{row_text, rows_text};
ghost use Rattle.room.specs.Room.{Put};
ghost use Rattle.converted_rows.specs.Noted.{size_by, row_sized, rows_noted, Each, SizesFit};
ghost use Rattle.converted_rows.specs.Notes.{number_of, numbers_of};

use card::limits::{COUNT_BYTES, DECK_BYTES, ENTRY_BYTES, FLAG_AT, SIZE_AT, ZERO_BYTE_AT};
use deck_entries::word_at;
use deck_writer::put_row;
use room::place;

// What is noted of an entry: its body stays as it is; it is a card that is written anew, in so many bytes; or it is a
// card that cannot be converted. A length in two bytes makes a note four bytes long, half of a number.
#[derive(Clone, Copy)]
pub enum Note {
    Stays,
    Written(u16),
    NotConverted,
}

// How long the body of the entry at a place is in the new deck; that of a card that cannot be converted is longer by
// one byte than any deck.
pub fn new_size(deck: &[u8], from: usize, note: Note) -> usize
    requires { from + entry_bytes ≤ length deck.now }
    ensures { result ≡ size_by (number_of note) (row_of (drop from deck.now)).size }
{
    match note {
        Note::Stays => word_at(deck, from + SIZE_AT),
        Note::Written(long) => usize::from(long),
        Note::NotConverted => DECK_BYTES + 1,
    }
}

// The entry at a place, with a body of so many bytes at `offset`.
fn put_sized_row(
    room: &mut [u8],
    at: usize,
    deck: &[u8],
    from: usize,
    offset: usize,
    size: usize,
) -> usize
    requires entry_bytes_in_bounds { from + entry_bytes ≤ length deck.now }
    requires offset_lt_word_numbers { (offset < word_numbers) × (size < word_numbers) }
    ensures { Put room.old room.new at (row_text (row_sized offset size (row_of (drop from deck.now))) []) result }
{
    let number = word_at(deck, from);
    let flag = deck[from + FLAG_AT];
    let zero = deck[from + ZERO_BYTE_AT];
    put_row(room, at, number, offset, size, flag, zero)
}

// All entries, the first body at `first` and each other one where the body before ends.
pub fn put_new_rows(room: &mut [u8], at: usize, deck: &[u8], notes: &[Note], first: usize) -> usize
    requires each { Each deck.now (numbers_of notes.now) }
    requires sizes_fit { SizesFit deck.now (numbers_of notes.now) first }
    ensures { Put room.old room.new at (rows_text (rows_noted (numbers_of notes.now) first (contents_of deck.now)) []) result }
{
    let mut offset = first;
    let mut to = place(at);
    for (i, note) in notes.iter().enumerate() {
        let from = COUNT_BYTES + ENTRY_BYTES * i;
        let size = new_size(deck, from, *note);
        to = put_sized_row(room, to, deck, from, offset, size);
        offset += size;
    }
    to
}
