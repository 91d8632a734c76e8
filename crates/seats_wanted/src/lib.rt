// How many seats the groups of a card want; and, once its seats are counted, the first refusal of 5, 6 and 7.
#![tactic(auto)]

ghost use Rattle.std.specs.Prelude.{◌≡◌};
ghost use Rattle.late.specs.Late.{wants as wants_at, grouped as grouped_at};
ghost use Rattle.late.specs.Settled.{settled};
ghost use Rattle.late.specs.State.{late_in, with_late};

use card::Refusal;
use card::refusals::NOT_DUE;
use late::blame;
use late::state::{Groups, State};

// A group that is symmetric for one number of seats only.
fn wants(state: &mut State, want: usize, place: usize)
    ensures { state.new ≡ with_late state.old (wants_at want place (late_in state.old)) }
{
    if state.late.refusal.is_some() {
        return;
    }
    let groups = match state.late.groups {
        None => Groups {
            want,
            first: place,
            second: None,
        },
        Some(groups) if groups.want == want => groups,
        Some(groups) => Groups {
            second: groups.second.or(Some(place)),
            ..groups
        },
    };
    state.late.groups = Some(groups);
}

// A group that wants so many seats (0: it is symmetric for no number of seats), and its bracket.
pub fn grouped(state: &mut State, want: usize, place: usize)
    ensures { state.new ≡ with_late state.old (grouped_at want place (late_in state.old)) }
{
    if want == 0 {
        blame(state, NOT_DUE, place);
    } else {
        wants(state, want, place);
    }
}

// The first refusal that is due on a card of so many seats.
pub fn settle(state: &State, seats: usize) -> Result<(), Refusal>
    ensures { result ≡ settled seats (late_in state.now) }
{
    if let Some(groups) = state.late.groups {
        if groups.want != seats {
            return Err(Refusal {
                number: NOT_DUE,
                place: groups.first,
            });
        }
        if let Some(place) = groups.second {
            return Err(Refusal {
                number: NOT_DUE,
                place,
            });
        }
    }
    match state.late.refusal {
        Some(refusal) => Err(refusal),
        None => Ok(()),
    }
}
