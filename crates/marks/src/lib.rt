// A cursor by value over the bytes of a card: its step hands back the next mark and the cursor behind it.
#![tactic(auto)]

pub mod answer;
mod number;
mod sign;
mod word;

ghost use Rattle.std.specs.Prelude.{◌≡◌, ℕ, ◌+◌, ◌<◌, length, drop, get_or};
ghost use Rattle.marks_on_a_card.specs.Marks.{start_at, gap_of};
ghost use Rattle.marks.specs.Step.{stepped, step_at};
ghost use Rattle.marks.specs.declared.Step as steps;

use answer::bare;
use letters::bytes::{is_alone, is_digit, is_letter};
use letters::gaps::gap;
use marks_on_a_card::kinds::END;
use number::numeral;
use sign::sign;
use word::word;

#[derive(Clone, Copy)]
pub struct Cursor {
    pub at: usize,
}

// A mark in numbers: its kind; the number of a word or a number, or before a decimal's point; a decimal's digits after the
// point, and the number they spell; the place of its first byte.
#[derive(Clone, Copy)]
pub struct Found {
    pub kind: usize,
    pub value: usize,
    pub digits: usize,
    pub further: usize,
    pub place: usize,
}

#[derive(Clone, Copy)]
pub struct Step {
    pub mark: Found,
    pub next: Cursor,
}

// The mark that starts with the byte b at a place, which is no blank and begins no comment.
fn start(card: &[u8], at: usize, b: u8) -> Step
    requires { (at < length card.now) × (b ≡ get_or card.now at 0) × (gap_of (start_at b (drop (at + 1) card.now)) ≡ 0) }
    ensures { (k : ℕ → steps.Step) → result ≡ stepped at (start_at b (drop (at + 1) card.now)) k }
{
    if is_alone(b) {
        return bare(usize::from(b), at, at + 1);
    }
    if is_digit(b) {
        return numeral(card, at);
    }
    if is_letter(b) {
        return word(card, at);
    }
    sign(card, at, b)
}

impl Cursor {
    pub fn new() -> Cursor
        ensures { result.at ≡ 0 }
    {
        Cursor { at: 0 }
    }

    // The next mark of the card, and the cursor behind it; at the end, a mark of the kind END at the card's length.
    pub fn step(self, card: &[u8]) -> Step
        ensures { result ≡ step_at card.now self.at }
    {
        let mut at = self.at;
        // how far a turn goes is told by the blank or the comment that stands there
        while at < card.len() {
            let b = card[at];
            let n = gap(card, at, b);
            if n == 0 {
                return start(card, at, b);
            }
            at += n;
        }
        let end = card.len();
        bare(END, end, end)
    }
}
