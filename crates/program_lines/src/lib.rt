// What the panel program does with single lines: seats read from one, a refusal put as one ("Texts, byte for byte").
#![tactic(auto)]

ghost use Rattle.std.specs.Prelude.{◌≡◌, map, unwrap_or, ◌++◌, ◌≤◌, min, length, take, drop};
ghost use Rattle.room.specs.Room.{Put};
ghost use Rattle.entry.specs.Said.{refused};
ghost use Rattle.panel_wording.specs.Lines.{no_state, seat_of as seat_of_said, printed, refusal_most};

use put_numbers::put_number;
use room::{put_byte, put_bytes};

// What is stored for a byte that is no state: a panel's seats are bytes, and no card has so many states.
const NO_STATE: u8 = 255;

// The state that a byte of a line stands for: a digit's.
fn seat_of(b: u8) -> Option<u8>
    ensures { unwrap_or result no_state ≡ seat_of_said b }
{
    match b {
        b'0'..=b'9' => Some(b - b'0'),
        _ => None,
    }
}

// The first seats of a line, as many as there are places for.
pub fn put_seats(line: &[u8], seats: &mut [u8]) -> usize
    ensures value { result ≡ min (length line.now) (length seats.old) }
    ensures seats_after { seats.new ≡ map seat_of_said (take result line.now) ++ drop result seats.old }
{
    let count = line.len().min(seats.len());
    for (i, byte) in line[..count].iter().enumerate() {
        seats[i] = seat_of(*byte).unwrap_or(NO_STATE);
    }
    count
}

pub fn put_refusal(room: &mut [u8], number: u8, place: usize) -> usize
    ensures line { Put room.old room.new 0 (printed (refused number place)) result }
    ensures short { result ≤ refusal_most }
{
    let a = put_bytes(room, 0, b"refused ");
    let b = put_number(room, a, usize::from(number));
    let c = put_byte(room, b, b' ');
    let d = put_number(room, c, place);
    put_byte(room, d, b'\n')
}
