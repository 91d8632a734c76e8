// A mended deck and its list, put into a room each, all or nothing (document 02, 2026-09).
#![tactic(auto)]

ghost use Rattle.phrases.specs.Puts.{Puts};
ghost use Rattle.mended_rooms.specs.Lines.{lines_by};
ghost use Rattle.std.specs.Prelude.{◌≡◌, ◌≤◌, ◌<◌, length, [], map};
ghost use Rattle.card.specs.Limits.{word_numbers};
ghost use Rattle.deck_entries.specs.Rows.{row_by as fields_of};
ghost use Rattle.deck.specs.Contents.{end_of};
ghost use Rattle.room.specs.Room.{Put};
ghost use Rattle.mended_rooms.specs.Parts.{row_by, body_by, behind_by};
ghost use Rattle.deck.specs.Deck.{entry_of, rows_text, bodies, deck_text};
ghost use Rattle.deck_written.specs.WriteDeckSaid.{lines_for};
ghost use Rattle.mending.specs.Mending.{kept, kept_in, line_text};
ghost use Rattle.mending.specs.FateBy.{fate_by};
ghost use Rattle.mended_rooms.specs.KeptBy.{rows_kept, Each, OffsetsFit, BodiesInside, Fates};
ghost use Rattle.entry.specs.Contract.{two};
ghost use Rattle.mended_rooms.specs.Mends.{Mends};

use card::Refusal;
use card::limits::{COUNT_BYTES, ENTRY_BYTES};
use card::refusals::ROOM_TOO_SMALL;
use deck_entries::{Entry, malformed};
use deck_writer::put_row;
use mending::Rule;
use put_numbers::put_number;
use room::{place, put_byte, put_bytes, put_run};

// A line of the list, by an entry's fate: the first rule that it breaks, or none if it is kept.
fn put_line(room: &mut [u8], at: usize, fate: Option<Rule>) -> usize
    ensures { Puts room.old room.new at (line_text (fate_by fate)) result }
{
    let Some(rule) = fate else {
        return put_bytes(room, at, b"kept\n");
    };
    let a = put_bytes(room, at, b"dropped ");
    let b = put_number(room, a, rule as usize);
    put_byte(room, b, b'\n')
}

// The list, a line for each entry; the answer is the place behind the last.
fn put_list(room: &mut [u8], fates: &[Option<Rule>]) -> usize
    ensures { Puts room.old room.new 0 (lines_by (map fate_by fates.now)) result }
{
    let mut to = place(0);
    for &fate in fates {
        to = put_line(room, to, fate);
    }
    to
}

// Where the next body starts, behind an entry.
fn offset_behind(entry: Entry, fate: Option<Rule>, offset: usize) -> usize
    requires { offset < word_numbers }
    ensures { result ≡ behind_by (fate_by fate) (fields_of entry) offset }
{
    match fate {
        Some(_) => offset,
        None => offset + entry.size as usize,
    }
}

// An entry, with its body at `offset`; one that is dropped puts nothing.
fn put_kept_row(
    room: &mut [u8],
    at: usize,
    entry: Entry,
    fate: Option<Rule>,
    offset: usize,
) -> usize
    requires { offset < word_numbers }
    ensures { Put room.old room.new at (row_by (fate_by fate) (fields_of entry) offset) result }
{
    match fate {
        Some(_) => place(at),
        None => {
            let number = entry.number as usize;
            let size = entry.size as usize;
            put_row(room, at, number, offset, size, entry.flag, entry.zero)
        }
    }
}

// The body of an entry: of one that is kept it lies in the deck, and one that is dropped puts nothing.
fn put_kept_body(room: &mut [u8], at: usize, deck: &[u8], entry: Entry, fate: Option<Rule>) -> usize
    requires { fate_by fate ≡ kept → end_of (fields_of entry) ≤ length deck.now }
    ensures { Put room.old room.new at (body_by deck.now (fate_by fate) (fields_of entry)) result }
{
    match fate {
        Some(_) => place(at),
        None => {
            let offset = entry.offset as usize;
            let end = entry.end();
            put_run(room, at, &deck[offset..end])
        }
    }
}

// The entries kept, the first body at `first`.
fn put_rows(room: &mut [u8], at: usize, deck: &[u8], fates: &[Option<Rule>], first: usize) -> usize
    requires each { Each deck.now fates.now }
    requires offsets_fit { OffsetsFit deck.now fates.now first }
    ensures { Put room.old room.new at (rows_text (lines_for first (rows_kept deck.now fates.now)) []) result }
{
    let mut offset = first;
    let mut to = place(at);
    for (i, &fate) in fates.iter().enumerate() {
        let entry = Entry::at(deck, COUNT_BYTES + ENTRY_BYTES * i);
        to = put_kept_row(room, to, entry, fate, offset);
        offset = offset_behind(entry, fate, offset);
    }
    to
}

// Their bodies, one behind the other.
fn put_bodies(room: &mut [u8], at: usize, deck: &[u8], fates: &[Option<Rule>]) -> usize
    requires each { Each deck.now fates.now }
    requires bodies_inside { BodiesInside deck.now fates.now }
    ensures { Put room.old room.new at (bodies (map (entry_of deck.now) (rows_kept deck.now fates.now))) result }
{
    let mut to = place(at);
    for (i, &fate) in fates.iter().enumerate() {
        let entry = Entry::at(deck, COUNT_BYTES + ENTRY_BYTES * i);
        to = put_kept_body(room, to, deck, entry, fate);
    }
    to
}

// The whole deck of the `cards` entries kept.
fn put_mended(room: &mut [u8], deck: &[u8], fates: &[Option<Rule>], cards: usize) -> usize
    requires { Fates deck.now fates.now cards }
    ensures { Put room.old room.new 0 (deck_text (kept_in deck.now)) result }
{
    let first = COUNT_BYTES + ENTRY_BYTES * cards;
    let a = put_byte(room, 0, cards as u8);
    let b = put_rows(room, a, deck, fates, first);
    put_bodies(room, b, deck, fates)
}

// The lengths of the deck and of the list, by the entries' fates: `cards` are kept, with so many bytes. The deck's room is judged before the list's, and nothing is put before both are.
pub fn store_mended(
    deck: &[u8],
    fates: &[Option<Rule>],
    cards: usize,
    bytes: usize,
    room: &mut [u8],
    list: &mut [u8],
) -> Result<(usize, usize), Refusal>
    requires fates { Fates deck.now fates.now cards }
    requires bytes_value { bytes ≡ length (bodies (kept_in deck.now)) }
    ensures { Mends (two room.old list.old) (two room.new list.new) deck.now result }
{
    if cards == 0 {
        return Err(malformed(0));
    }
    let need = COUNT_BYTES + ENTRY_BYTES * cards + bytes;
    let mut nothing: [u8; 0] = [0; 0];
    let lines = put_list(&mut nothing, fates);
    if room.len() < need {
        return Err(Refusal {
            number: ROOM_TOO_SMALL,
            place: need,
        });
    }
    if list.len() < lines {
        return Err(Refusal {
            number: ROOM_TOO_SMALL,
            place: lines,
        });
    }
    let deck_length = put_mended(room, deck, fates, cards);
    let list_length = put_list(list, fates);
    Ok((deck_length, list_length))
}
