// A box converted: its live cards without decimal weights, in a deck without gaps; or the card that cannot be
// converted (document 02, 2026-11).
#![tactic(auto)]

ghost use Rattle.std.specs.Prelude.{◌≡◌, ◌+◌, ◌≤◌, length, drop};
ghost use Rattle.card.specs.Limits.{entry_bytes, most_cards};
ghost use Rattle.deck.specs.Contents.{row_of, count_of, contents_of};
ghost use Rattle.deck.specs.Deck.{entry_of, body_of};
ghost use Rattle.deck.specs.Sound.{Sound};
ghost use Rattle.converted_rows.specs.Notes.{note_of, body_noted, bodies_noted, number_of, numbers_of};
ghost use Rattle.converted_rows.proofs.Text.{RightRow};
ghost use Rattle.convert.specs.NotesFound.{NotesFound};
ghost use Rattle.room.specs.Room.{Put};
ghost use Rattle.room.specs.Answer.{Entered};
ghost use Rattle.converting.specs.Converting.{convert_said};
ghost use Rattle.converted_rows.specs.Noted.{Each};
ghost use Rattle.convert.specs.Ready.{BodiesFit, Ready};

use boxes::judge_deck;
use card::Refusal;
use card::limits::{COUNT_BYTES, DECK_BYTES, ENTRY_BYTES, FLAG_AT, MOST_CARDS, OFFSET_AT, SIZE_AT};
use card::refusals::{NOT_CONVERTED, ROOM_TOO_SMALL};
use converted_card::{note_of_card, put_written};
use converted_rows::{Note, new_size, put_new_rows};
use deck_entries::word_at;
use room::{place, put_byte, put_run};

// The note of the entry at a place; a withdrawn card is not read.
fn note_of(deck: &[u8], from: usize) -> Note
    requires entry_bytes_in_bounds { from + entry_bytes ≤ length deck.now }
    requires right_row { RightRow deck.now (row_of (drop from deck.now)) }
    ensures { number_of result ≡ note_of (entry_of deck.now (row_of (drop from deck.now))) }
{
    if deck[from + FLAG_AT] == 0 {
        return Note::Stays;
    }
    let offset = word_at(deck, from + OFFSET_AT);
    let size = word_at(deck, from + SIZE_AT);
    let end = offset + size;
    note_of_card(&deck[offset..end])
}

// A note for each of the `count` entries, and where the last body ends; or the number of the first card that cannot be
// converted.
fn notes_into(deck: &[u8], count: usize, notes: &mut [Note; MOST_CARDS]) -> Result<usize, Refusal>
    requires sound { Sound deck.now }
    requires count_value { count ≡ count_of deck.now }
    requires notes_len { length notes.old ≡ most_cards }
    ensures { NotesFound deck.now (numbers_of notes.old) (numbers_of notes.new) result }
{
    let mut end = COUNT_BYTES + ENTRY_BYTES * count;
    for i in 0..count {
        let from = COUNT_BYTES + ENTRY_BYTES * i;
        let note = note_of(deck, from);
        notes[i] = note;
        end += new_size(deck, from, note);
        if DECK_BYTES < end {
            let number = word_at(deck, from);
            return Err(Refusal {
                number: NOT_CONVERTED,
                place: number,
            });
        }
    }
    Ok(end)
}

// The new body of the entry at a place, where the room has bytes for it.
fn put_body(room: &mut [u8], at: usize, deck: &[u8], from: usize, note: Note) -> usize
    requires entry_bytes_in_bounds { from + entry_bytes ≤ length deck.now }
    requires right_row { RightRow deck.now (row_of (drop from deck.now)) }
    requires deck_in_bounds { at + length (body_noted (number_of note) (body_of deck.now (row_of (drop from deck.now)))) ≤ length room.old }
    ensures { Put room.old room.new at (body_noted (number_of note) (body_of deck.now (row_of (drop from deck.now)))) result }
{
    let offset = word_at(deck, from + OFFSET_AT);
    let size = word_at(deck, from + SIZE_AT);
    let end = offset + size;
    match note {
        Note::Stays => put_run(room, at, &deck[offset..end]),
        Note::Written(_) | Note::NotConverted => put_written(room, at, &deck[offset..end]),
    }
}

// All bodies, one behind the other.
fn put_bodies(room: &mut [u8], at: usize, deck: &[u8], notes: &[Note]) -> usize
    requires each { Each deck.now (numbers_of notes.now) }
    requires bodies_fit { BodiesFit deck.now (numbers_of notes.now) at room.old }
    ensures { Put room.old room.new at (bodies_noted deck.now (numbers_of notes.now) (contents_of deck.now)) result }
{
    let mut to = place(at);
    for (i, note) in notes.iter().enumerate() {
        to = put_body(room, to, deck, COUNT_BYTES + ENTRY_BYTES * i, *note);
    }
    to
}

// The new deck of `count` cards, which ends at `need`: the room is judged before anything is put.
fn store_new(
    deck: &[u8],
    count: usize,
    notes: &[Note],
    need: usize,
    room: &mut [u8],
) -> Result<usize, Refusal>
    requires count_value { count ≡ count_of deck.now }
    requires ready { Ready deck.now (numbers_of notes.now) need }
    ensures { Entered room.old room.new (convert_said deck.now) result }
{
    if room.len() < need {
        return Err(Refusal {
            number: ROOM_TOO_SMALL,
            place: need,
        });
    }
    let first = COUNT_BYTES + ENTRY_BYTES * count;
    let a = put_byte(room, 0, deck[0]);
    let b = put_new_rows(room, a, deck, notes, first);
    Ok(put_bodies(room, b, deck, notes))
}

// The deck is judged first, then each card in the order of the contents, then the room.
pub fn convert(deck: &[u8], room: &mut [u8]) -> Result<usize, Refusal>
    ensures { Entered room.old room.new (convert_said deck.now) result }
{
    judge_deck(deck)?;
    let count = deck[0] as usize;
    let mut notes: [Note; MOST_CARDS] = [Note::Stays; MOST_CARDS];
    let need = notes_into(deck, count, &mut notes)?;
    store_new(deck, count, &notes[..count], need, room)
}
