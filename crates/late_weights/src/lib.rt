// What is judged late of weights: their form, and their sum.
#![tactic(auto)]

ghost use Rattle.std.specs.Prelude.{◌≡◌};
ghost use Rattle.late.specs.State.{late_in, with_late};
ghost use Rattle.late_weights.specs.LateWeights.{form_by, sum_by};

use card::refusals::{DECIMAL_WEIGHT, WRONG_WEIGHT};
use late::blame;
use late::state::State;
use weights::Weight;

// By hand: a usize need not hold 32 bits, so the library has no From for that.
pub fn wide(x: u32) -> usize
    ensures { result ≡ x }
{
    x as usize
}

// A decimal is a late refusal where none may be a weight.
pub fn judge_form(decimals: bool, place: usize, state: &mut State)
    ensures { state.new ≡ with_late state.old (form_by decimals place (late_in state.old)) }
{
    if !decimals {
        blame(state, DECIMAL_WEIGHT, place);
    }
}

// A sum of units that is not the unit is one too.
pub fn judge_sum(total: usize, place: usize, state: &mut State)
    ensures { state.new ≡ with_late state.old (sum_by total place (late_in state.old)) }
{
    if total != wide(Weight::UNIT) {
        blame(state, WRONG_WEIGHT, place);
    }
}
