// Texts that several entries print: the mode, and a text with a number behind it; by what a weight is reduced ("Texts, byte for byte").
#![tactic(auto)]

ghost use Rattle.std.specs.Prelude.{◌≡◌, ◌++◌, ℕ, ◌<◌, ◌≤◌};
ghost use Rattle.card.specs.Limits.{unit};
ghost use Rattle.card.specs.Card.{nondeterministic, probabilistic};
ghost use Rattle.card.specs.Laid.{either};
ghost use Rattle.phrases.specs.Phrases.{divisor as divisor_of, num, mode_text};
ghost use Rattle.phrases.specs.Puts.{Puts};

use card::limits::NUMBER_DIGITS;
use put_numbers::put_number;
use room::put_bytes;
use weights::Weight;

// One of two texts, by a choice's number: the second for any but 0.
pub fn put_either<'a>(room: &mut [u8], at: usize, choice: usize, s: &'a [u8], t: &'a [u8]) -> usize
    ensures { Puts room.old room.new at (λ rest. either s.now t.now choice ++ rest) result }
{
    if choice == 0 {
        return put_bytes(room, at, s);
    }
    put_bytes(room, at, t)
}

// The mode by its number in a card's struct: 0 is nondeterministic.
pub fn put_mode(room: &mut [u8], at: usize, mode: usize) -> usize
    ensures { Puts room.old room.new at (mode_text (either nondeterministic probabilistic mode)) result }
{
    put_either(room, at, mode, b"nondeterministic", b"probabilistic")
}

// A text, and a number behind it.
pub fn put_numbered(room: &mut [u8], at: usize, s: &[u8], n: usize) -> usize
    ensures { Puts room.old room.new at (λ t. s.now ++ num n t) result }
{
    let a = put_bytes(room, at, s);
    put_number(room, a, n)
}

// The greatest number that divides both the unit and `units`.
pub fn divisor(units: u32) -> u32
    requires { units ≤ unit }
    ensures { (result ≡ divisor_of units) × (0 < result) }
{
    let mut a = Weight::UNIT;
    let mut b = units;
    // Euclid's way: there is no index
    while b != 0 {
        let rest = a % b;
        a = b;
        b = rest;
    }
    a
}

// A fraction has two numbers and a sign between them at most (specs/Phrases.antt).
pub const WEIGHT_MOST: usize = 1 + 2 * NUMBER_DIGITS;
