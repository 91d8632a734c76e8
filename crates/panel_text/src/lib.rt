// The panel's text ("Texts, byte for byte"; document 02, 2026-10), from the table of its numbers, and how it is stored in a room that it fits into.
#![tactic(auto)]

ghost use Rattle.std.specs.Prelude.{◌≡◌, [], ◌∷◌, ◌+◌, ◌≤◌, length, get_or, take};
ghost use Rattle.card.specs.Limits.{top_state};
ghost use Rattle.card.specs.Card.{nondeterministic, probabilistic};
ghost use Rattle.card.specs.Laid.{either};
ghost use Rattle.room.specs.Room.{Put};
ghost use Rattle.phrases.specs.Phrases.{◌▸◌, num, mode_text};
ghost use Rattle.phrases.specs.Puts.{Puts};
ghost use Rattle.panel_numbers.specs.Table.{enabled_place, shared_in, table_places};
ghost use Rattle.panel_wording.specs.PanelText.{line, shared_text, panel_text};
ghost use Rattle.panel_wording.specs.PanelIn.{Showing, shown_if, panel_in};
ghost use Rattle.entry.specs.Said.{says as text};
ghost use Rattle.room.specs.Answer.{Entered};
ghost use Rattle.panel_wording.specs.PanelRoom.{Printable};

use card::limits::{BRANCH_PLACES, MOST_BRANCHES, MOST_STATEMENTS, ROW_PLACES};
use card::refusals::ROOM_TOO_SMALL;
use card::{Head, NONDETERMINISTIC, Refusal};
use lines::{put_line, put_stay, put_stays};
use moves_text::{put_choices, put_table};
use phrases::put_mode;
use put_numbers::put_number;
use room::{place, put_bytes};
use weighing::{ENABLED, SHARED, STAYS, TABLE_PLACES};

// The shared number, where it has values at all.
fn put_shared(room: &mut [u8], at: usize, shared: usize, present: usize) -> usize
    ensures { Puts room.old room.new at (shared_text (shown_if shared present)) result }
{
    if shared == 0 {
        return place(at);
    }
    let values = [present];
    put_line(room, at, b"shared", &values)
}

// How many are enabled, and how many sit in each state.
fn put_counts(room: &mut [u8], at: usize, enabled: usize, states: usize, table: &[usize]) -> usize
    requires { states ≤ length table.now }
    ensures { Puts room.old room.new at (λ t. line " enabled" (enabled ∷ []) (line "counts" (take states table.now) t)) result }
{
    let values = [enabled];
    let a = put_line(room, at, b" enabled", &values);
    put_line(room, a, b"counts", &table[..states])
}

// The lines before the weights; the mode by its number in a card's struct.
fn put_head(room: &mut [u8], at: usize, head: Head, table: &[usize]) -> usize
    requires { (head.top ≤ top_state) × (length table.now ≡ table_places) }
    ensures { Puts room.old room.new at (λ t. mode_text (either nondeterministic probabilistic head.mode) ("\nseats " ▸ num head.seats (line " enabled" (get_or table.now enabled_place 0 ∷ []) (line "counts" (take (head.top + 1) table.now) (shared_text (shown_if head.shared (shared_in table.now)) t))))) result }
{
    let states = head.top + 1;
    let enabled = table[ENABLED];
    let present = table[SHARED];
    let a = put_mode(room, at, head.mode);
    let b = put_bytes(room, a, b"\nseats ");
    let c = put_number(room, b, head.seats);
    let d = put_counts(room, c, enabled, states, table);
    put_shared(room, d, head.shared, present)
}

// The whole panel, of a card that lies in lent arrays. On a nondeterministic card the table has a weight of no change only where no choice
// can be taken: then the shared number stays too.
fn put_panel<'a>(
    room: &mut [u8],
    at: usize,
    head: Head,
    table: &'a [usize; TABLE_PLACES],
    rows: &'a [usize; ROW_PLACES],
    branches: &'a [u32; BRANCH_PLACES],
) -> usize
    requires { Showing head table.now rows.now branches.now }
    ensures { Put room.old room.new at (panel_text (panel_in head table.now rows.now branches.now)) result }
{
    let present = table[SHARED];
    let stay = table[STAYS + present];
    let a = put_head(room, at, head, table);
    if head.mode != NONDETERMINISTIC {
        let b = put_stays(room, a, table, STAYS, head.shared);
        return put_table(room, b, head, table, rows, branches);
    }
    if stay == 0 {
        return put_choices(room, a, head, table, rows, branches);
    }
    let values = [0];
    let b = put_line(room, a, b"choice", &values);
    put_stay(room, b, stay, present, head.shared)
}

// A room that every panel fits into (panel_wording/specs/PanelRoom.antt).
const LINE_MOST: usize = 21;

const CHOICE_MOST: usize = 10 + MOST_BRANCHES * LINE_MOST;

pub const PANEL_ROOM: usize = 78 + MOST_STATEMENTS * CHOICE_MOST;

// How long a panel's text is: it is put into a room of no bytes.
fn measure<'a>(
    head: Head,
    table: &'a [usize; TABLE_PLACES],
    rows: &'a [usize; ROW_PLACES],
    branches: &'a [u32; BRANCH_PLACES],
) -> usize
    requires { Printable head table.now rows.now branches.now }
    ensures { result ≡ length (panel_text (panel_in head table.now rows.now branches.now)) }
{
    let mut nothing: [u8; 0] = [0; 0];
    put_panel(&mut nothing, 0, head, table, rows, branches)
}

// A panel of which all numbers are known. A room that every panel fits into takes it in one walk; else a first walk tells the length, and
// a second one stores the text where it fits.
pub fn enter_panel<'a>(
    room: &mut [u8],
    head: Head,
    table: &'a [usize; TABLE_PLACES],
    rows: &'a [usize; ROW_PLACES],
    branches: &'a [u32; BRANCH_PLACES],
) -> Result<usize, Refusal>
    requires { Printable head table.now rows.now branches.now }
    ensures { Entered room.old room.new (text (panel_text (panel_in head table.now rows.now branches.now))) result }
{
    if PANEL_ROOM <= room.len() {
        return Ok(put_panel(room, 0, head, table, rows, branches));
    }
    let need = measure(head, table, rows, branches);
    if room.len() < need {
        return Err(Refusal {
            number: ROOM_TOO_SMALL,
            place: need,
        });
    }
    let part = need;
    Ok(put_panel(&mut room[..part], 0, head, table, rows, branches))
}
