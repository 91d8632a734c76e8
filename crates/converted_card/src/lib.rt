// One live card of a box that is converted: what is noted of it, and its written form put into a room (document 02,
// 2026-11).
#![tactic(auto)]

ghost use Rattle.std.specs.Prelude.{◌≡◌, true, ◌+◌, ◌≤◌, length};
ghost use Rattle.reading.specs.Reading.{read_under as read_under_said};
ghost use Rattle.room.specs.Room.{Put};
ghost use Rattle.converting.specs.Converting.{old_rule, new_rule};
ghost use Rattle.converted_rows.specs.Notes.{note_by, number_of, written_of};

use card::limits::{BRANCH_PLACES, CARD_BYTES, NODE_PLACES, ROW_PLACES};
use card_text::{put_card, written_length};
use converted_rows::Note;
use reader::read_under;
use room::place;
use weights::Weight;

// The rule by which boxes in the field were filled: a decimal may be a weight.
const OLD_RULE: bool = true;

// It stays if the new rule takes it too; else it is written, if that is not too long for a card.
pub fn note_of_card(card: &[u8]) -> Note
    ensures { number_of result ≡ note_by true (read_under_said old_rule card.now) (read_under_said new_rule card.now) }
{
    let mut rows: [usize; ROW_PLACES] = [0; ROW_PLACES];
    let mut nodes: [u32; NODE_PLACES] = [0; NODE_PLACES];
    let mut branches: [u32; BRANCH_PLACES] = [0; BRANCH_PLACES];
    if read_under(card, Weight::DECIMALS, &mut rows, &mut nodes, &mut branches).is_ok() {
        return Note::Stays;
    }
    let Ok(head) = read_under(card, OLD_RULE, &mut rows, &mut nodes, &mut branches) else {
        return Note::NotConverted;
    };
    let long = written_length(head, &rows, &nodes, &branches);
    if CARD_BYTES < long {
        Note::NotConverted
    } else {
        Note::Written(long as u16)
    }
}

// The card's written form at a place, where the room has bytes for it; nothing if the old rule does not take it.
pub fn put_written(room: &mut [u8], at: usize, card: &[u8]) -> usize
    requires { at + length (written_of (read_under_said old_rule card.now)) ≤ length room.old }
    ensures { Put room.old room.new at (written_of (read_under_said old_rule card.now)) result }
{
    let mut rows: [usize; ROW_PLACES] = [0; ROW_PLACES];
    let mut nodes: [u32; NODE_PLACES] = [0; NODE_PLACES];
    let mut branches: [u32; BRANCH_PLACES] = [0; BRANCH_PLACES];
    if let Ok(head) = read_under(card, OLD_RULE, &mut rows, &mut nodes, &mut branches) {
        let long = put_card(&mut room[at..], head, &rows, &nodes, &branches);
        return at + long;
    }
    place(at)
}
