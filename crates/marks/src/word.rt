// Words ("Marks on a card"): seat words, module words, keywords and others.
ghost use Rattle.std.specs.Prelude.{◌≡◌, true, ℕ, ◌+◌, ◌<◌, length, drop, get_or};
ghost use Rattle.marks_on_a_card.specs.Bytes.{is_letter};
ghost use Rattle.marks_on_a_card.specs.Marks.{word as word_of};
ghost use Rattle.marks.specs.Step.{stepped};
ghost use Rattle.marks.specs.declared.Step as step;

use crate::Step;
use crate::answer::{bare, valued};
use letters::bytes::{word_at, word_end};
use marks_on_a_card::kinds::{PROCESS, SEAT, WORD};
use words_and_digits::{keyword_begun, numbered_at};

// The mark that starts with the letter at a place.
pub fn word(card: &[u8], at: usize) -> Step
    requires { (at < length card.now) × (is_letter (get_or card.now at 0) ≡ true) }
    ensures { (k : ℕ → step.Step) → result ≡ stepped at (word_of (get_or card.now at 0) (drop (at + 1) card.now)) k }
{
    if let Some(seat) = numbered_at(card, at, b"s") {
        return valued(SEAT, seat.value, at, at + seat.count);
    }
    if let Some(process) = numbered_at(card, at, b"process") {
        return valued(PROCESS, process.value, at, at + process.count);
    }
    if let Some(known) = keyword_begun(card, at) {
        let end = at + known.size;
        if !word_at(card, end) {
            return bare(known.kind, at, end);
        }
    }
    bare(WORD, at, word_end(card, at))
}
