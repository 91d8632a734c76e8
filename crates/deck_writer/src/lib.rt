// A box written from contents and bodies, without gaps: its lines judged, its count, entries and bodies put (document 02, 2026-02). No offset is read, and no card.
#![tactic(auto)]

ghost use Rattle.std.specs.Prelude.{◌≡◌, ◌*◌, ◌≤◌, ◌+◌, ◌<◌, length, [], ◌∷◌};
ghost use Rattle.card.specs.Limits.{entry_bytes, most_cards, deck_bytes, word_numbers};
ghost use Rattle.deck_written.specs.WriteDeckSaid.{lines, line_said, sizes, write_deck_said};
ghost use Rattle.deck_entries.specs.Rows.{row_by};
ghost use Rattle.deck_entries.specs.Verdicts.{verdict_of};
ghost use Rattle.room.specs.Answer.{told, Entered};
ghost use Rattle.deck_writer.specs.Measured.{measured, contents_said, row_with};
ghost use Rattle.deck.specs.Deck.{low, high, row_text};
ghost use Rattle.room.specs.Room.{Put};
ghost use Rattle.deck_writer.specs.Parts.{lines_text, DeckPut};
ghost use Rattle.entry.specs.Said.{says};

use card::Refusal;
use card::limits::{COUNT_BYTES, DECK_BYTES, ENTRY_BYTES, FLAG_AT, MOST_CARDS, ZERO_BYTE_AT};
use card::refusals::ROOM_TOO_SMALL;
use deck_entries::{BYTE_VALUES, Entry, malformed};
use room::{place, put_byte, put_run};

// An entry that starts at `at`: its number is at least `least`. Its offset is not looked at.
fn judge_line(entry: Entry, at: usize, least: usize) -> Result<(), Refusal>
    requires { at + entry_bytes ≤ entry_bytes * most_cards }
    ensures { result ≡ verdict_of (line_said at least (row_by entry)) }
{
    if (entry.number as usize) < least {
        return Err(malformed(at));
    }
    if 1 < entry.flag {
        return Err(malformed(at + FLAG_AT));
    }
    if entry.zero != 0 {
        return Err(malformed(at + ZERO_BYTE_AT));
    }
    Ok(())
}

// The entries one behind the other: how long their bodies are together, or 11 at the first wrong field.
fn judge_lines(contents: &[u8]) -> Result<usize, Refusal>
    requires { length contents.now ≤ entry_bytes * most_cards }
    ensures { result ≡ told (measured 0 0 0 (lines contents.now)) }
{
    let mut least: usize = 0;
    let mut long: usize = 0;
    for i in 0..contents.len() / ENTRY_BYTES {
        let at = ENTRY_BYTES * i;
        let entry = Entry::at(contents, at);
        judge_line(entry, at, least)?;
        least = entry.number as usize + 1;
        long += entry.size as usize;
    }
    Ok(long)
}

// Contents that a deck is to be written from: the count first, then the entries.
fn judge_contents(contents: &[u8]) -> Result<usize, Refusal>
    ensures { result ≡ told (contents_said contents.now) }
{
    if contents.len() % ENTRY_BYTES != 0
        || contents.len() == 0
        || ENTRY_BYTES * MOST_CARDS < contents.len()
    {
        return Err(malformed(contents.len()));
    }
    judge_lines(contents)
}

// A number of two bytes, low byte first.
fn put_word(room: &mut [u8], at: usize, n: usize) -> usize
    requires { n < word_numbers }
    ensures { Put room.old room.new at (low n ∷ high n ∷ []) result }
{
    let a = put_byte(room, at, (n % BYTE_VALUES) as u8);
    put_byte(room, a, (n / BYTE_VALUES) as u8)
}

// The eight bytes of an entry. By its fields, not as a struct: crates above call it with fields that they have reckoned.
pub fn put_row(
    room: &mut [u8],
    at: usize,
    number: usize,
    offset: usize,
    size: usize,
    flag: u8,
    zero: u8,
) -> usize
    requires { (number < word_numbers) × (offset < word_numbers) × (size < word_numbers) }
    ensures { Put room.old room.new at (row_text (row_with number offset size flag zero) []) result }
{
    let a = put_word(room, at, number);
    let b = put_word(room, a, offset);
    let c = put_word(room, b, size);
    let d = put_byte(room, c, flag);
    put_byte(room, d, zero)
}

// The entries of a deck whose first body starts at `first`, and each other one where the body before ends.
fn put_lines(room: &mut [u8], at: usize, contents: &[u8], first: usize) -> usize
    requires { first + sizes (lines contents.now) ≤ deck_bytes }
    ensures { Put room.old room.new at (lines_text first contents.now) result }
{
    let mut offset = first;
    let mut to = place(at);
    for i in 0..contents.len() / ENTRY_BYTES {
        let entry = Entry::at(contents, ENTRY_BYTES * i);
        to = put_row(
            room,
            to,
            entry.number as usize,
            offset,
            entry.size as usize,
            entry.flag,
            entry.zero,
        );
        offset += entry.size as usize;
    }
    to
}

// The whole deck, its bodies from `first` on; the answer is the place behind them.
fn put_deck(room: &mut [u8], contents: &[u8], bodies: &[u8], first: usize) -> usize
    requires contents_len_bound { length contents.now ≤ entry_bytes * most_cards }
    requires contents_bound { first + sizes (lines contents.now) ≤ deck_bytes }
    ensures { DeckPut room.old room.new contents.now bodies.now first result }
{
    let a = put_byte(room, 0, (contents.len() / ENTRY_BYTES) as u8);
    put_lines(room, a, contents, first);
    put_run(room, first, bodies)
}

// Contents that were judged: do the bodies fit to them, and the deck into the room?
fn write_bodies(
    contents: &[u8],
    bodies: &[u8],
    long: usize,
    room: &mut [u8],
) -> Result<usize, Refusal>
    requires { contents_said contents.now ≡ says long }
    ensures { Entered room.old room.new (write_deck_said contents.now bodies.now) result }
{
    if long != bodies.len() {
        return Err(malformed(contents.len()));
    }
    let first = COUNT_BYTES + contents.len();
    let need = first + bodies.len();
    if DECK_BYTES < need {
        return Err(malformed(contents.len()));
    }
    if room.len() < need {
        return Err(Refusal {
            number: ROOM_TOO_SMALL,
            place: need,
        });
    }
    Ok(put_deck(room, contents, bodies, first))
}

// The contents are judged first, the bodies behind them, and the room last.
pub fn write_deck(contents: &[u8], bodies: &[u8], room: &mut [u8]) -> Result<usize, Refusal>
    ensures { Entered room.old room.new (write_deck_said contents.now bodies.now) result }
{
    let long = judge_contents(contents)?;
    write_bodies(contents, bodies, long, room)
}
