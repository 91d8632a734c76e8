// The further modules of a card, up to its end, read from its bytes.
#![tactic(auto)]

ghost use Rattle.std.specs.Prelude.{◌≡◌, ◌≤◌};
ghost use Rattle.card.specs.Limits.{most_seats};
ghost use Rattle.late.specs.State.{late_in, after};
ghost use Rattle.frame.specs.Frame.{ModuleFrom, EndedBy, ModulesFrom};

use card::Refusal;
use card::limits::MOST_SEATS;
use card::refusals::{OUT_OF_SHAPE, PAST_LIMIT};
use due_words::step_module;
use late::state::State;
use marks::{Cursor, Found};
use marks_on_a_card::kinds::{
    COMMA, END, ENDMODULE, EQUAL, MODULE, PROCESS, SEAT, SQUARE_CLOSE, SQUARE_OPEN,
};
use parts::run;
use written_copy::past_copy;

// The place behind a further module, the one of this seat: where its text stands as a written card has it, or tight, it
// is passed at once, else mark by mark.
fn copy(card: &[u8], at: usize, seat: usize, state: &mut State) -> Result<usize, Refusal>
    requires { seat ≤ most_seats }
    ensures { ModuleFrom card.now at seat (late_in state.old) (after state.new result) }
{
    if let Some(next) = past_copy(card, at, seat) {
        return Ok(next);
    }
    let dues = [
        (PROCESS, seat),
        (EQUAL, 0),
        (PROCESS, 1),
        (SQUARE_OPEN, 0),
        (SEAT, 1),
        (EQUAL, 0),
        (SEAT, seat),
        (COMMA, 0),
        (SEAT, seat),
        (EQUAL, 0),
        (SEAT, 1),
        (SQUARE_CLOSE, 0),
        (ENDMODULE, 0),
    ];
    run(card, at, &dues, state)
}

// The mark behind the last module has to be the end; the number of seats becomes the value.
fn ended(mark: Found, at: usize, seats: usize, state: &mut State) -> Result<usize, Refusal>
    ensures { EndedBy mark at seats (late_in state.old) (after state.new result) }
{
    if mark.kind != END {
        return Err(Refusal {
            number: OUT_OF_SHAPE,
            place: mark.place,
        });
    }
    state.value = seats;
    Ok(at)
}

// From behind the first module on; the number of seats becomes the value.
pub fn modules(card: &[u8], at: usize, state: &mut State) -> Result<usize, Refusal>
    ensures { ModulesFrom card.now at (late_in state.old) (after state.new result) }
{
    let mut next = at;
    for seats in 1..MOST_SEATS {
        let step = step_module(card, next);
        let mark = step.mark;
        if mark.kind != MODULE {
            return ended(mark, next, seats, state);
        }
        next = copy(card, step.next.at, seats + 1, state)?;
    }
    let cursor = Cursor { at: next };
    let step = cursor.step(card);
    let mark = step.mark;
    if mark.kind == MODULE {
        return Err(Refusal {
            number: PAST_LIMIT,
            place: mark.place,
        });
    }
    ended(mark, next, MOST_SEATS, state)
}
