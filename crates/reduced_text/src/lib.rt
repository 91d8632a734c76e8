// The reduced program's text ("Texts, byte for byte", first part), translated and printed in one walk over the card's nodes, and stored in a room where it fits.
#![tactic(auto)]

ghost use Rattle.std.specs.Prelude.{◌≡◌, eqb, suc, ◌≤◌, ◌<◌};
ghost use Rattle.meaning.specs.Sums.{gate, upto};
ghost use Rattle.card.specs.Limits.{top_state};
ghost use Rattle.card.specs.Card.{nondeterministic, probabilistic};
ghost use Rattle.card.specs.Laid.{either, shared_of};
ghost use Rattle.card.specs.Lent.{lent, card_in, HoldsIn};
ghost use Rattle.room.specs.Room.{Put};
ghost use Rattle.phrases.specs.Phrases.{◌▸◌, mode_text};
ghost use Rattle.phrases.specs.Puts.{Puts};
ghost use Rattle.texts.specs.Shared.{declaration};
ghost use Rattle.texts.specs.ReducedText.{counter_line, counters, reduced_of};
ghost use Rattle.room.specs.Answer.{Entered};
ghost use Rattle.entry.specs.Said.{says as text};

use card::limits::{BRANCH_PLACES, MOST_SEATS, MOST_STATEMENTS, NODE_PLACES, ROW_PLACES};
use card::refusals::ROOM_TOO_SMALL;
use card::{Head, Refusal};
use leaf_text::style::Form;
use phrases::put_mode;
use room::{place, put_bytes, put_filled, put_run};
use shared_text::put_declaration;
use statement_copies::TAIL_PLACES;
use statement_text::put_statements;

// What the counter of state d starts at.
fn start_of(d: usize, seats: usize, start: usize) -> usize
    ensures number { result ≡ gate (eqb start d) seats }
    ensures few { result ≤ seats }
{
    if start == d {
        return seats;
    }
    0
}

fn put_counter(room: &mut [u8], at: usize, d: usize, seats: usize, start: usize) -> usize
    requires { (d < 10) × (seats < 20) }
    ensures { Puts room.old room.new at (counter_line seats d (gate (eqb start d) seats)) result }
{
    let i = b'0' + d as u8;
    let v = start_of(d, seats, start);
    if seats < 10 {
        let mut line: [u8; 22] = *b"no_0 : [0..0] init 0;\n";
        line[3] = i;
        line[11] = b'0' + seats as u8;
        line[19] = b'0' + v as u8;
        return put_filled(room, at, line);
    }
    let n = b'0' + (seats - 10) as u8;
    if v < 10 {
        let mut line: [u8; 23] = *b"no_0 : [0..10] init 0;\n";
        line[3] = i;
        line[12] = n;
        line[20] = b'0' + v as u8;
        return put_filled(room, at, line);
    }
    let mut line: [u8; 24] = *b"no_0 : [0..10] init 10;\n";
    line[3] = i;
    line[12] = n;
    line[21] = b'0' + (v - 10) as u8;
    put_filled(room, at, line)
}

// The counters of states 0 to `top`.
fn put_counters(room: &mut [u8], at: usize, seats: usize, top: usize, start: usize) -> usize
    requires { (top ≤ top_state) × (seats < 20) }
    ensures { Puts room.old room.new at (counters seats 0 (upto (suc top) (λ d. gate (eqb start d) seats))) result }
{
    let mut to = place(at);
    for d in 0..top + 1 {
        to = put_counter(room, to, d, seats, start);
    }
    to
}

// All before the statements.
fn put_head(room: &mut [u8], at: usize, head: Head) -> usize
    requires { (head.top ≤ top_state) × (head.seats < 20) }
    ensures { Puts room.old room.new at (λ t. mode_text (either nondeterministic probabilistic head.mode) (declaration (shared_of head.shared head.initial) ("\nmodule generic_process\n" ▸ counters head.seats 0 (upto (suc head.top) (λ d. gate (eqb head.start d) head.seats)) t))) result }
{
    let a = put_mode(room, at, head.mode);
    let b = put_declaration(room, a, head.shared, head.initial);
    let c = put_bytes(room, b, b"\nmodule generic_process\n");
    put_counters(room, c, head.seats, head.top, head.start)
}

// The whole text.
fn put_program<'a>(
    room: &mut [u8],
    head: Head,
    rows: &'a [usize; ROW_PLACES],
    nodes: &'a [u32; NODE_PLACES],
    branches: &'a [u32],
) -> usize
    requires { HoldsIn head (lent rows.now nodes.now branches.now) }
    ensures { Put room.old room.new 0 (reduced_of (card_in head (lent rows.now nodes.now branches.now))) result }
{
    let a = put_head(room, 0, head);
    let b = put_statements(room, a, head, rows, nodes, branches, Form::Reduced);
    put_bytes(room, b, b"endmodule\n")
}

// A room that every reduced text fits into (texts/specs/Lengths.antt).
const COPY_MOST: usize = 11 + TAIL_PLACES;

const REDUCED_ROOM: usize = 268 + MOST_STATEMENTS * MOST_SEATS * COPY_MOST;

// A text up to this length is made once, beside the room, where the room may be too small.
const DRAFT_PLACES: usize = 768;

// A card that was taken. A room that every text fits into takes it in one walk. Else a first walk makes a draft, which tells the length;
// a text that the draft holds is copied where it fits, and a longer one is walked again.
pub fn reduce_card<'a>(
    room: &mut [u8],
    head: Head,
    rows: &'a [usize; ROW_PLACES],
    nodes: &'a [u32; NODE_PLACES],
    branches: &'a [u32; BRANCH_PLACES],
) -> Result<usize, Refusal>
    requires { HoldsIn head (lent rows.now nodes.now branches.now) }
    ensures { Entered room.old room.new (text (reduced_of (card_in head (lent rows.now nodes.now branches.now)))) result }
{
    if REDUCED_ROOM <= room.len() {
        return Ok(put_program(room, head, rows, nodes, branches));
    }
    let mut draft: [u8; DRAFT_PLACES] = [0; DRAFT_PLACES];
    let need = put_program(&mut draft, head, rows, nodes, branches);
    if room.len() < need {
        return Err(Refusal {
            number: ROOM_TOO_SMALL,
            place: need,
        });
    }
    if need <= DRAFT_PLACES {
        return Ok(put_run(room, 0, &draft[..need]));
    }
    Ok(put_program(&mut room[..need], head, rows, nodes, branches))
}
