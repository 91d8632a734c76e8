// Signs, the longest first ("Marks on a card").
ghost use Rattle.std.specs.Prelude.{◌≡◌, ℕ, ◌+◌, ◌<◌, length, drop};
ghost use Rattle.marks_on_a_card.specs.Marks.{sign as sign_of};
ghost use Rattle.marks.specs.Step.{stepped};
ghost use Rattle.marks.specs.declared.Step as step;

use crate::Step;
use crate::answer::bare;
use letters::bytes::{is_sign, stands};
use marks_on_a_card::kinds::{ARROW, DOTS, NOT_EQUAL, OUTSIDE};

// The mark that starts with the byte b at a place, which is no letter and no digit.
pub fn sign(card: &[u8], at: usize, b: u8) -> Step
    requires { at < length card.now }
    ensures { (k : ℕ → step.Step) → result ≡ stepped at (sign_of b (drop (at + 1) card.now)) k }
{
    let next = at + 1;
    match b {
        b'!' if stands(card, next, b'=') => bare(NOT_EQUAL, at, next + 1),
        b'.' if stands(card, next, b'.') => bare(DOTS, at, next + 1),
        b'-' if stands(card, next, b'>') => bare(ARROW, at, next + 1),
        _ if is_sign(b) => bare(usize::from(b), at, next),
        _ => bare(OUTSIDE, at, next),
    }
}
