// What a branch does to the counters and to the shared number, put as text: the part of a reduced statement behind its weight.
#![tactic(auto)]

ghost use Rattle.std.proofs.Math.Option.{none};
ghost use Rattle.card.specs.Laid.{set_of};
ghost use Rattle.meaning.specs.Reduced.{shift, update_of};
ghost use Rattle.phrases.specs.Puts.{Puts};
ghost use Rattle.texts.specs.ReducedText.{update_text};

use phrases::put_numbered;
use put_numbers::put_number;
use room::{put_bytes, put_filled};
use shared_text::{put_set, put_set_last};

// A seat's way from `own` to `end`, as counters lowered and raised: as one line, where both states have one digit.
fn put_shift(room: &mut [u8], at: usize, own: usize, end: usize, seats: usize) -> usize
    ensures { Puts room.old room.new at (update_text (shift own end seats) none) result }
{
    if own < 10 && end < 10 {
        let mut line: [u8; 35] = *b"(no_0'=no_0-1) & (no_0'=min(no_0+1,";
        line[4] = b'0' + own as u8;
        line[10] = b'0' + own as u8;
        line[21] = b'0' + end as u8;
        line[31] = b'0' + end as u8;
        let most = put_filled(room, at, line);
        let close = put_number(room, most, seats);
        return put_bytes(room, close, b"))");
    }
    let a = put_numbered(room, at, b"(no_", own);
    let b = put_numbered(room, a, b"'=no_", own);
    let c = put_numbered(room, b, b"-1) & (no_", end);
    let d = put_numbered(room, c, b"'=min(no_", end);
    let e = put_numbered(room, d, b"+1,", seats);
    put_bytes(room, e, b"))")
}

// What a branch to `end` does; `sets` is 0 where it does not set the shared number, and else one more than what it sets it to. `true` stands where
// there is nothing else.
pub fn put_update(
    room: &mut [u8],
    at: usize,
    own: usize,
    end: usize,
    seats: usize,
    sets: usize,
) -> usize
    ensures { Puts room.old room.new at (update_text (update_of seats own end) (set_of sets)) result }
{
    if own == end {
        if sets == 0 {
            return put_bytes(room, at, b"true");
        }
        return put_set(room, at, sets - 1);
    }
    let a = put_shift(room, at, own, end, seats);
    if sets == 0 {
        return a;
    }
    put_set_last(room, a, sets - 1)
}
