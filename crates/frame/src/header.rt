// The beginning of a card, up to its statements, read from its bytes.
ghost use Rattle.late.specs.State.{late_in, after};
ghost use Rattle.frame.specs.Frame.{HeaderFrom};

use crate::shared::shared;
use card::Refusal;
use card::limits::TOP_STATE;
use late::state::State;
use marks_on_a_card::kinds::{COLON, MODULE, PROCESS, SEAT, SQUARE_OPEN};
use mode_and_range::{mode, range};
use parts::run;

// The mode, the shared number, the top state and the start state go to their places in the state.
pub fn header(card: &[u8], at: usize, state: &mut State) -> Result<usize, Refusal>
    ensures { HeaderFrom card.now at (late_in state.old) (after state.new result) }
{
    let first = mode(card, at, state)?;
    let mode = state.value;
    let behind = shared(card, first, state)?;
    let values = state.shared;
    let initial = state.initial;
    let dues = [
        (MODULE, 0),
        (PROCESS, 1),
        (SEAT, 1),
        (COLON, 0),
        (SQUARE_OPEN, 0),
    ];
    let words = run(card, behind, &dues, state)?;
    let end = range(card, words, TOP_STATE, state)?;
    state.mode = mode;
    state.shared = values;
    state.initial = initial;
    Ok(end)
}
