// A place for a new live card in a deck: its number, the count of live cards and the room are judged, then the deck is
// tidied and the card put in at its place by number (document 02, 2026-12).
#![tactic(auto)]

ghost use Rattle.std.specs.Prelude.{◌≡◌, ◌++◌, ◌≤◌, length, drop};
ghost use Rattle.card.specs.Limits.{most_cards};
ghost use Rattle.deck.specs.Contents.{behind};
ghost use Rattle.deck.specs.Deck.{held_by};
ghost use Rattle.tidying.specs.Tidying.{added_text, place_said};
ghost use Rattle.placing.specs.Lower.{Spots};
ghost use Rattle.placing.specs.Inserts.{Insertable};
ghost use Rattle.deck.specs.Sound.{Head};
ghost use Rattle.tidying.specs.Tidied.{live_cards};
ghost use Rattle.tidy.specs.Tidies.{Tidied, Measured};
ghost use Rattle.placing.specs.Free.{LivePlace};

use boxes::is_live;
use card::Refusal;
use card::limits::{COUNT_BYTES, ENTRY_BYTES, MOST_CARDS, SIZE_AT};
use card::refusals::{NOT_ADDED, ROOM_TOO_SMALL};
use deck_entries::word_at;
use deck_writer::put_row;
use gathering::{Live, gather_rows};
use room::put_run;
use shifting::move_up;
use tidy::close_up;

// The places of a new entry and of its body.
#[derive(Clone, Copy)]
pub struct Spot {
    pub row: usize,
    pub body: usize,
}

// Behind all entries with a lower number.
fn spot_for(deck: &[u8], count: usize, number: usize) -> Spot
    requires count_in_bounds { behind count ≤ length deck.now }
    requires count_le_most_cards { count ≤ most_cards }
    ensures { Spots deck.now count number result }
{
    let end = COUNT_BYTES + ENTRY_BYTES * count;
    let mut body = end;
    for i in 0..count {
        let row = COUNT_BYTES + ENTRY_BYTES * i;
        if number <= word_at(deck, row) {
            return Spot { row, body };
        }
        body += word_at(deck, row + SIZE_AT);
    }
    Spot { row: end, body }
}

// A live card put into a tidy deck at its place by number. Room is made for its entry and its body: what comes behind
// the new body moves up by the body and the entry, what comes between them by the entry. The offsets come last.
fn insert_card(deck: &mut [u8], live: Live, number: usize, card: &[u8])
    requires { Insertable deck.old live number card.now }
    ensures { deck.new ≡ added_text number card.now (held_by deck.old) ++ drop (length (added_text number card.now (held_by deck.old))) deck.old }
{
    let Spot { row, body } = spot_for(deck, live.cards, number);
    let size = card.len();
    let end = COUNT_BYTES + ENTRY_BYTES * live.cards + live.bytes;
    move_up(deck, body, body + size + ENTRY_BYTES, end - body);
    move_up(deck, row, row + ENTRY_BYTES, body - row);
    put_run(deck, body + ENTRY_BYTES, card);
    put_row(deck, row, number, 0, size, 1, 0);
    let count = live.cards + 1;
    deck[0] = count as u8;
    gather_rows(deck, count, COUNT_BYTES + ENTRY_BYTES * count);
}

// The first byte of the live entry with a number.
fn live_place(deck: &[u8], number: usize) -> Option<usize>
    requires { Head deck.now }
    ensures { LivePlace deck.now number result }
{
    for i in 0..usize::from(deck[0]) {
        let at = COUNT_BYTES + ENTRY_BYTES * i;
        if is_live(deck, at, number) {
            return Some(at);
        }
    }
    None
}

// A sound deck with these live entries; the card is accepted.
pub fn place_card(deck: &mut [u8], live: Live, number: u16, card: &[u8]) -> Result<usize, Refusal>
    requires { Measured deck.old live }
    ensures { Tidied deck.old deck.new (place_said deck.old number card.now (live_cards deck.old)) result }
{
    let number = number as usize;
    if let Some(taken) = live_place(deck, number) {
        return Err(Refusal {
            number: NOT_ADDED,
            place: taken,
        });
    }
    if MOST_CARDS <= live.cards {
        return Err(Refusal {
            number: NOT_ADDED,
            place: 0,
        });
    }
    let need = COUNT_BYTES + ENTRY_BYTES * (live.cards + 1) + live.bytes + card.len();
    if deck.len() < need {
        return Err(Refusal {
            number: ROOM_TOO_SMALL,
            place: need,
        });
    }
    close_up(deck, live);
    insert_card(deck, live, number, card);
    Ok(need)
}
