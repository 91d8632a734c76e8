// Bytes moved within one lent room, lower or higher, and the end of a room cleared (document 02, 2026-12).
#![tactic(auto)]

ghost use Rattle.std.specs.Prelude.{◌≡◌, ◌+◌, ◌≤◌, length, take, drop};
ghost use Rattle.room.specs.Room.{clip};
ghost use Rattle.tidying.specs.Tidied.{zeroed};

use byte_blocks::{blocks_down, blocks_up};

// Byte by byte, from the first on: none is overwritten before it has been moved.
fn bytes_down(room: &mut [u8], from: usize, to: usize, size: usize)
    requires to_le_from { to ≤ from }
    requires size_in_bounds { from + size ≤ length room.old }
    ensures { room.new ≡ clip room.old to (take size (drop from room.old)) }
{
    for i in 0..size {
        room[to + i] = room[from + i];
    }
}

// From the last on.
fn bytes_up(room: &mut [u8], from: usize, to: usize, size: usize)
    requires from_le_to { from ≤ to }
    requires size_in_bounds { to + size ≤ length room.old }
    ensures { room.new ≡ clip room.old to (take size (drop from room.old)) }
{
    for left in (0..size).rev() {
        room[to + left] = room[from + left];
    }
}

// Blocks first, then the few bytes behind them. What stays is not touched.
pub fn move_down(room: &mut [u8], from: usize, to: usize, size: usize)
    requires to_le_from { to ≤ from }
    requires size_in_bounds { from + size ≤ length room.old }
    ensures { room.new ≡ clip room.old to (take size (drop from room.old)) }
{
    if from == to {
        return;
    }
    let done = blocks_down(room, from, to, size);
    bytes_down(room, from + done, to + done, size - done);
}

// Blocks first, then the few bytes before them.
pub fn move_up(room: &mut [u8], from: usize, to: usize, size: usize)
    requires from_le_to { from ≤ to }
    requires size_in_bounds { to + size ≤ length room.old }
    ensures { room.new ≡ clip room.old to (take size (drop from room.old)) }
{
    let left = blocks_up(room, from, to, size);
    bytes_up(room, from, to, left);
}

// Every byte from a place on becomes zero.
pub fn clear_from(room: &mut [u8], at: usize)
    requires { at ≤ length room.old }
    ensures { room.new ≡ clip room.old at (zeroed (drop at room.old)) }
{
    room[at..].fill(0);
}
