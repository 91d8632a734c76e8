// A weight put as text, in lowest terms ("Texts, byte for byte").
#![tactic(auto)]

ghost use Rattle.phrases.specs.Phrases.{weight_text};
ghost use Rattle.phrases.specs.Puts.{Puts};

use phrases::divisor;
use put_numbers::{put_long_number, put_number};
use room::put_byte;
use weights::Weight;

// A weight in lowest terms; units beyond the unit are not a weight, and are put as the unit.
pub fn put_weight(room: &mut [u8], at: usize, units: u32) -> usize
    ensures { Puts room.old room.new at (weight_text units) result }
{
    if units == 0 {
        return put_byte(room, at, b'0');
    }
    if Weight::UNIT <= units {
        return put_byte(room, at, b'1');
    }
    let by = divisor(units);
    let a = put_number(room, at, (units / by) as usize);
    let b = put_byte(room, a, b'/');
    put_long_number(room, b, (Weight::UNIT / by) as usize)
}
