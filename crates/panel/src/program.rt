// The panel program as a function from the bytes that it reads to the bytes that it prints ("Texts, byte for byte").
ghost use Rattle.std.specs.Prelude.{◌≤◌, length};
ghost use Rattle.panel_said.specs.PanelSaid.{panel_said};
ghost use Rattle.panel_wording.specs.PanelRoom.{panel_room};
ghost use Rattle.panel_said.specs.Program.{printed, answer_to as answer_to_said, program_of, Printed};

use crate::panel;
use card::limits::MOST_SEATS;
use line_ends::line_end;
use panel_text::PANEL_ROOM;
use program_lines::{put_refusal, put_seats};

// Bytes behind these are not read.
pub const INPUT_BYTES: usize = 65536;

// Enough for every panel and every refusal, so that none is refused for its length.
pub const OUTPUT_BYTES: usize = PANEL_ROOM;

// One more than any card has seats, with a shared number behind them: more bytes than that are refused as these are.
const SEAT_PLACES: usize = MOST_SEATS + 2;

// The panel, or a refusal's line.
fn print<'a>(card: &'a [u8], seats: &'a [u8], room: &mut [u8]) -> usize
    requires { panel_room ≤ length room.old }
    ensures { Printed room.old room.new (printed (panel_said card.now seats.now)) result }
{
    match panel(card, seats, room) {
        Ok(long) => long,
        Err(refusal) => put_refusal(room, refusal.number, refusal.place),
    }
}

// The line of seats, and the card behind it.
fn answer_to(input: &[u8], room: &mut [u8]) -> usize
    requires { panel_room ≤ length room.old }
    ensures { Printed room.old room.new (answer_to_said input.now) result }
{
    let mut seats: [u8; SEAT_PLACES] = [0; SEAT_PLACES];
    let end = line_end(input, 0);
    let count = put_seats(&input[..end], &mut seats);
    if end < input.len() {
        let from = end + 1;
        return print(&input[from..], &seats[..count], room);
    }
    print(&input[end..], &seats[..count], room)
}

// What the program prints for what it reads: so many bytes at the start of the room.
pub fn respond(input: &[u8], room: &mut [u8; OUTPUT_BYTES]) -> usize
    ensures { Printed room.old room.new (program_of input.now) result }
{
    if INPUT_BYTES < input.len() {
        return answer_to(&input[..INPUT_BYTES], room);
    }
    answer_to(input, room)
}
