// The written card ("Texts, byte for byte", the paragraph on the written card), of a card that lies in arrays: how long it is, and the text stored in a room where it fits.
#![tactic(auto)]

ghost use Rattle.std.specs.Prelude.{◌≡◌, length, ◌-◌, ◌≤◌, ◌<◌};
ghost use Rattle.card.specs.Limits.{most_seats, most_statements};
ghost use Rattle.card.specs.Card.{nondeterministic, probabilistic};
ghost use Rattle.card.specs.Laid.{either, shared_of};
ghost use Rattle.card.specs.Lent.{lent, card_in, HoldsIn};
ghost use Rattle.room.specs.Room.{Put};
ghost use Rattle.phrases.specs.Puts.{Puts};
ghost use Rattle.texts.specs.Writing.{module_text, modules, write_of};
ghost use Rattle.texts.specs.Lengths.{written_most as written_most_said};
ghost use Rattle.card_text.specs.Parts.{head_text};
ghost use Rattle.room.specs.Answer.{Entered};
ghost use Rattle.entry.specs.Said.{says as text};

use card::limits::{BRANCH_PLACES, MOST_BRANCHES, NODE_PLACES, ROW_PLACES};
use card::refusals::ROOM_TOO_SMALL;
use card::{Head, Refusal};
use leaf_text::style::Form;
use phrases::{WEIGHT_MOST, put_mode, put_numbered};
use room::{place, put_bytes, put_filled};
use shared_text::put_declaration;
use statement_text::put_statements;

// A module of seats 2 to 16.
fn put_module(room: &mut [u8], at: usize, seat: usize) -> usize
    requires { seat < 20 }
    ensures { Puts room.old room.new at (module_text seat) result }
{
    if seat < 10 {
        let i = b'0' + seat as u8;
        let mut line: [u8; 52] = *b"module process0 = process1 [s1=s0, s0=s1] endmodule\n";
        line[14] = i;
        line[32] = i;
        line[36] = i;
        return put_filled(room, at, line);
    }
    let i = b'0' + (seat - 10) as u8;
    let mut line: [u8; 55] = *b"module process10 = process1 [s1=s10, s10=s1] endmodule\n";
    line[15] = i;
    line[34] = i;
    line[39] = i;
    put_filled(room, at, line)
}

// The modules behind the first.
fn put_modules(room: &mut [u8], at: usize, seats: usize) -> usize
    requires { seats < 20 }
    ensures { Puts room.old room.new at (modules 1 (seats - 1)) result }
{
    let mut to = place(at);
    for i in 1..seats {
        to = put_module(room, to, i + 1);
    }
    to
}

// All before the statements.
fn put_head(room: &mut [u8], at: usize, head: Head) -> usize
    ensures { Puts room.old room.new at (head_text (either nondeterministic probabilistic head.mode) (shared_of head.shared head.initial) head.top head.start) result }
{
    let a = put_mode(room, at, head.mode);
    let b = put_declaration(room, a, head.shared, head.initial);
    let c = put_numbered(room, b, b"\nmodule process1\ns1 : [0..", head.top);
    let d = put_numbered(room, c, b"] init ", head.start);
    put_bytes(room, d, b";\n")
}

// The whole card.
pub fn put_card<'a>(
    room: &mut [u8],
    head: Head,
    rows: &'a [usize; ROW_PLACES],
    nodes: &'a [u32; NODE_PLACES],
    branches: &'a [u32],
) -> usize
    requires { HoldsIn head (lent rows.now nodes.now branches.now) }
    ensures { Put room.old room.new 0 (write_of (card_in head (lent rows.now nodes.now branches.now))) result }
{
    let a = put_head(room, 0, head);
    let b = put_statements(room, a, head, rows, nodes, branches, Form::Written);
    let c = put_bytes(room, b, b"endmodule\n");
    put_modules(room, c, head.seats)
}

// How long the text is: a walk that stores nothing.
pub fn written_length<'a>(
    head: Head,
    rows: &'a [usize; ROW_PLACES],
    nodes: &'a [u32; NODE_PLACES],
    branches: &'a [u32],
) -> usize
    requires { HoldsIn head (lent rows.now nodes.now branches.now) }
    ensures { result ≡ length (write_of (card_in head (lent rows.now nodes.now branches.now))) }
{
    let mut none: [u8; 0] = [0; 0];
    put_card(&mut none, head, rows, nodes, branches)
}

// What each part of a written card comes to at most (texts/specs/Lengths.antt).
const HEAD_MOST: usize = 89;

const BARE_MOST: usize = 233 + MOST_BRANCHES * WEIGHT_MOST;

const SEAT_MOST: usize = 144;

const MODULE_MOST: usize = 55;

// Bytes that are enough for every card of so many seats and statements.
fn written_most(seats: usize, count: usize) -> usize
    requires seats_le_most_seats { seats ≤ most_seats }
    requires count_le_most_statements { count ≤ most_statements }
    ensures { result ≡ written_most_said seats count }
{
    let statement = BARE_MOST + SEAT_MOST * seats;
    HEAD_MOST + count * statement + seats * MODULE_MOST
}

// A card that was taken. A room that is long enough for every card of its size takes the text in one walk; else the text is measured first,
// and stored where it fits.
pub fn write_card<'a>(
    room: &mut [u8],
    head: Head,
    rows: &'a [usize; ROW_PLACES],
    nodes: &'a [u32; NODE_PLACES],
    branches: &'a [u32; BRANCH_PLACES],
) -> Result<usize, Refusal>
    requires { HoldsIn head (lent rows.now nodes.now branches.now) }
    ensures { Entered room.old room.new (text (write_of (card_in head (lent rows.now nodes.now branches.now)))) result }
{
    let most = written_most(head.seats, head.count);
    if most <= room.len() {
        return Ok(put_card(room, head, rows, nodes, branches));
    }
    let need = written_length(head, rows, nodes, branches);
    if room.len() < need {
        return Err(Refusal {
            number: ROOM_TOO_SMALL,
            place: need,
        });
    }
    Ok(put_card(&mut room[..need], head, rows, nodes, branches))
}
