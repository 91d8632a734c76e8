// What is kept of two refusals, one behind the other: the first. No refusal has the number 0 (document 01, "Refusal
// numbers"), so of 0 `blame` keeps nothing, and `blame_any` the number like any other.
use crate::state::State;
use crate::{blame, blame_any, first_state};

// The number and the place of what is kept.
fn kept(state: &State) -> Option<(u8, usize)> {
    let refusal = state.late.refusal?;
    Some((refusal.number, refusal.place))
}

#[test]
fn first_is_kept(rt: HostRuntime) {
    // the first number, at 12; what is kept of any number, and of one that is a refusal, where a 5 at 3 comes behind it
    for (first, any, known) in [(6, (6, 12), (6, 12)), (0, (0, 12), (5, 3))] {
        let mut state = first_state(0);
        blame_any(&mut state, first, 12);
        blame_any(&mut state, 5, 3);
        assert_eq!(rt; kept(&state), Some(any), "any number, {first} first");
        let mut state = first_state(0);
        blame(&mut state, first, 12);
        blame(&mut state, 5, 3);
        assert_eq!(rt; kept(&state), Some(known), "{first} first");
    }
}
