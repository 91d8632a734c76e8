// The refusals 5, 6 and 7, kept while a card is read; and the stop of a guard's reader.
#![tactic(auto)]

pub mod state;
#[cfg(test)]
mod tests;

ghost use Rattle.std.specs.Prelude.{◌≡◌, leb};
ghost use Rattle.card.specs.Refusals.{above_top};
ghost use Rattle.reading.specs.Judgements.{unless};
ghost use Rattle.late.specs.Late.{none_yet, blame as blame_at, blame_any as blame_any_at, blamed};
ghost use Rattle.late.specs.Settled.{refusal};
ghost use Rattle.late.specs.State.{at_first, late_in, with_late, with_stop};

use crate::state::{Late, State, Stopped};
use card::Refusal;
use card::refusals::ABOVE_TOP;

// Before anything is read: a guard may have so many nodes.
pub fn first_state(left: usize) -> State
    ensures { result ≡ at_first left }
{
    let late = Late {
        refusal: None,
        groups: None,
    };
    State {
        late,
        stop: Refusal {
            number: 0,
            place: 0,
        },
        left,
        free: 0,
        value: 0,
        mode: 0,
        top: 0,
        start: 0,
        shared: 0,
        initial: 0,
    }
}

// The reader of a guard stops with this refusal.
pub fn stop(state: &mut State, number: u8, place: usize) -> Stopped
    ensures { state.new ≡ with_stop state.old (refusal number place) }
{
    state.stop = Refusal { number, place };
    Stopped
}

// A refusal that does not hang on the number of seats, unless one stands before it. The number 0 is no refusal.
pub fn blame(state: &mut State, number: u8, place: usize)
    ensures { state.new ≡ with_late state.old (blame_at number place (late_in state.old)) }
{
    if number != 0 && state.late.refusal.is_none() {
        state.late.refusal = Some(Refusal { number, place });
    }
}

// The same, but that any number is a refusal, 0 too. The readers of cards and questions call `blame`.
pub fn blame_any(state: &mut State, number: u8, place: usize)
    ensures { state.new ≡ with_late state.old (blame_any_at number place (late_in state.old)) }
{
    state.late.refusal = state.late.refusal.or(Some(Refusal { number, place }));
}

// A state that stands on the card, against the top state.
pub fn judge_state(state: &mut State, value: usize, top: usize, place: usize)
    ensures { state.new ≡ with_late state.old (blamed (unless (leb value top) above_top) place (late_in state.old)) }
{
    if value > top {
        blame(state, ABOVE_TOP, place);
    }
}
