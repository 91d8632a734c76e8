// The number that all seats share, where a card declares one behind its mode (document 02, 2026-10).
ghost use Rattle.std.specs.Prelude.{◌≡◌, eqb};
ghost use Rattle.marks_on_a_card.specs.Kinds.{kind};
ghost use Rattle.marks.specs.Step.{step_at};
ghost use Rattle.late.specs.State.{late_in, after};
ghost use Rattle.frame.specs.Frame.{SharedFrom};

use card::Refusal;
use card::limits::TOP_SHARED;
use due_signs::step_from;
use late::state::State;
use looks::look::past_line;
use marks_on_a_card::kinds::{COLON, GLOBAL, SHARED as G, SQUARE_OPEN};
use mode_and_range::range;
use parts::run;
use word_and_digit_looks::word_here;

// Does a `global` stand there? Most cards declare no number, and have a `module` there, which is looked for first.
fn declared(card: &[u8], at: usize) -> bool
    ensures { result ≡ eqb (step_at card.now at).mark.kind (kind "global") }
{
    let from = past_line(card, at);
    if word_here(card, from, b"module") {
        return false;
    }
    let step = step_from(card, from);
    step.mark.kind == GLOBAL
}

// global g : [0..m] init v; if it stands there. How many values the number has and what it starts at go to their places;
// 0 and 0 where none is declared.
pub fn shared(card: &[u8], at: usize, state: &mut State) -> Result<usize, Refusal>
    ensures { SharedFrom card.now at (late_in state.old) (after state.new result) }
{
    if !declared(card, at) {
        state.shared = 0;
        state.initial = 0;
        return Ok(at);
    }
    let dues = [(GLOBAL, 0), (G, 0), (COLON, 0), (SQUARE_OPEN, 0)];
    let words = run(card, at, &dues, state)?;
    let end = range(card, words, TOP_SHARED, state)?;
    state.shared = state.top + 1;
    state.initial = state.start;
    Ok(end)
}
