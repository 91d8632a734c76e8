// Parts of a card, read mark by mark from its bytes. A reader takes the place where it begins and the lent state of
// reading; it hands back the place behind what it read, or the refusal that it stopped with.
#![tactic(auto)]

ghost use Rattle.std.specs.Prelude.{◌≡◌};
ghost use Rattle.late.specs.State.{late_in, with_late, after};
ghost use Rattle.parts.specs.Parts.{word_by, NumberFrom, SignFrom, RunFrom};

use card::Refusal;
use card::refusals::{NOT_DUE, OUT_OF_SHAPE};
use due_signs::step_sign;
use due_words::{step_kind, step_number};
use late::state::State;
use late::{blame, judge_state};
use marks_on_a_card::kinds::NUMBER;

// A word whose number is not the one due is a late refusal.
fn judge_word(due: usize, number: usize, place: usize, state: &mut State)
    ensures { state.new ≡ with_late state.old (word_by due number place (late_in state.old)) }
{
    if number != due {
        blame(state, NOT_DUE, place);
    }
}

// A state: l, j, d or t, which becomes the value.
pub fn number(card: &[u8], at: usize, top: usize, state: &mut State) -> Result<usize, Refusal>
    ensures { NumberFrom card.now at top (late_in state.old) (after state.new result) }
{
    let step = step_number(card, at);
    let mark = step.mark;
    if mark.kind != NUMBER {
        return Err(Refusal {
            number: OUT_OF_SHAPE,
            place: mark.place,
        });
    }
    judge_state(state, mark.value, top, mark.place);
    state.value = mark.value;
    Ok(step.next.at)
}

// A sign or keyword.
pub fn sign(card: &[u8], at: usize, kind: usize) -> Result<usize, Refusal>
    ensures { SignFrom card.now at kind result }
{
    let step = step_sign(card, at, kind);
    let mark = step.mark;
    if mark.kind != kind {
        return Err(Refusal {
            number: OUT_OF_SHAPE,
            place: mark.place,
        });
    }
    Ok(step.next.at)
}

// A run of marks that are fixed but for the numbers in words: the kind of each, and the number due (0 at a sign).
pub fn run(
    card: &[u8],
    at: usize,
    dues: &[(usize, usize)],
    state: &mut State,
) -> Result<usize, Refusal>
    ensures { RunFrom card.now at dues.now (late_in state.old) (after state.new result) }
{
    let mut next = at;
    for &(kind, due) in dues {
        let step = step_kind(card, next, kind);
        let mark = step.mark;
        if mark.kind != kind {
            return Err(Refusal {
                number: OUT_OF_SHAPE,
                place: mark.place,
            });
        }
        judge_word(due, mark.value, mark.place, state);
        next = step.next.at;
    }
    Ok(next)
}
