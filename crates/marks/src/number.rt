// Numbers and decimals ("Marks on a card"): a whole run of digits, and a point only where a digit follows.
ghost use Rattle.std.specs.Prelude.{◌≡◌, true, ℕ, ◌+◌, ◌<◌, length, drop, get_or};
ghost use Rattle.marks_on_a_card.specs.Bytes.{is_digit};
ghost use Rattle.marks_on_a_card.specs.Marks.{numeral as numeral_of};
ghost use Rattle.marks.specs.Step.{stepped};
ghost use Rattle.marks.specs.declared.Step as step;

use crate::answer::{bare, valued};
use crate::{Cursor, Found, Step};
use card::limits::{FURTHER_DIGITS, NUMBER_DIGITS};
use marks_on_a_card::kinds::{DECIMAL, NUMBER, OUTSIDE};
use words_and_digits::{digits_from, is_plain, is_pointed};

// The mark that starts with the digit at a place.
pub fn numeral(card: &[u8], at: usize) -> Step
    requires { (at < length card.now) × (is_digit (get_or card.now at 0) ≡ true) }
    ensures { (k : ℕ → step.Step) → result ≡ stepped at (numeral_of (get_or card.now at 0) (drop (at + 1) card.now)) k }
{
    let d = digits_from(card, at);
    let count = d.count;
    if !is_plain(card, at, count, NUMBER_DIGITS) {
        return bare(OUTSIDE, at, at + 1);
    }
    let point = at + count;
    if !is_pointed(card, point) {
        return valued(NUMBER, d.value, at, point);
    }
    let from = point + 1;
    let f = digits_from(card, from);
    let more = f.count;
    if FURTHER_DIGITS < more {
        return bare(OUTSIDE, at, at + 1);
    }
    Step {
        mark: Found {
            kind: DECIMAL,
            value: d.value,
            digits: more,
            further: f.value,
            place: at,
        },
        next: Cursor { at: from + more },
    }
}
