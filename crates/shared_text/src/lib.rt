// The number that all seats share, put as text: its declaration, a test of it, and what a branch sets it to (document 02, 2026-10).
#![tactic(auto)]

ghost use Rattle.std.proofs.Math.Option.{some};
ghost use Rattle.card.specs.Card.{is, isnt};
ghost use Rattle.card.specs.Laid.{either, shared_of};
ghost use Rattle.phrases.specs.Puts.{Puts};
ghost use Rattle.texts.specs.Shared.{declaration, shared_text, set_text, set_last};

use phrases::{put_either, put_numbered};
use put_numbers::put_number;
use room::{place, put_byte, put_bytes};

// The line that declares it, of so many values, from the end of the mode's line on; nothing where there is no such number.
pub fn put_declaration(room: &mut [u8], at: usize, values: usize, initial: usize) -> usize
    ensures { Puts room.old room.new at (declaration (shared_of values initial)) result }
{
    if values == 0 {
        return place(at);
    }
    let a = put_numbered(room, at, b"\nglobal g : [0..", values - 1);
    let b = put_numbered(room, a, b"] init ", initial);
    put_byte(room, b, b';')
}

// A test, as it stands on the card.
pub fn put_shared(room: &mut [u8], at: usize, relation: usize, value: usize) -> usize
    ensures { Puts room.old room.new at (shared_text (either is isnt relation) value) result }
{
    let a = put_either(room, at, relation, b"(g=", b"(g!=");
    let b = put_number(room, a, value);
    put_byte(room, b, b')')
}

// What it is set to.
pub fn put_set(room: &mut [u8], at: usize, value: usize) -> usize
    ensures { Puts room.old room.new at (set_text value) result }
{
    let a = put_numbered(room, at, b"(g'=", value);
    put_byte(room, a, b')')
}

// The same behind what else a branch does.
pub fn put_set_last(room: &mut [u8], at: usize, value: usize) -> usize
    ensures { Puts room.old room.new at (set_last (some value)) result }
{
    let a = put_bytes(room, at, b" & ");
    put_set(room, a, value)
}
