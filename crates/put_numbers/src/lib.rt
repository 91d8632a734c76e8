// Numbers in decimal into a lent room.
#![tactic(auto)]

ghost use Rattle.std.specs.Prelude.{◌≡◌, length};
ghost use Rattle.room.specs.Room.{Put};
ghost use Rattle.room.specs.Digits.{decimal};

use room::{after, put_byte};

// How many digits a number has; up to six are told by tests, which take less time than the library's logarithm.
fn digits(n: usize) -> usize
    ensures { result ≡ length (decimal n) }
{
    if n < 10 {
        1
    } else if n < 100 {
        2
    } else if n < 1000 {
        3
    } else if n < 10000 {
        4
    } else if n < 100000 {
        5
    } else if n < 1000000 {
        6
    } else {
        n.ilog10() as usize + 1
    }
}

// A number in decimal. Its digits are counted first and stored from the last on; past the room they are only counted.
pub fn put_long_number(room: &mut [u8], at: usize, n: usize) -> usize
    ensures { Put room.old room.new at (decimal n) result }
{
    let k = digits(n);
    if room.len() <= at {
        return after(at, k);
    }
    let mut left = n;
    for j in (0..k).rev() {
        let to = at + j;
        let b = b'0' + (left % 10) as u8;
        left /= 10;
        if to < room.len() {
            room[to] = b;
        }
    }
    after(at, k)
}

// The same; most numbers have one digit.
pub fn put_number(room: &mut [u8], at: usize, n: usize) -> usize
    ensures { Put room.old room.new at (decimal n) result }
{
    if n < 10 {
        return put_byte(room, at, b'0' + n as u8);
    }
    put_long_number(room, at, n)
}
