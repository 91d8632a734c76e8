// The mode of a card, and a range with its start, read from its bytes.
#![tactic(auto)]

ghost use Rattle.late.specs.State.{late_in, after};
ghost use Rattle.mode_and_range.specs.ModeRange.{ModeFrom, SpanFrom, RangeFrom};

use card::refusals::{OUT_OF_SHAPE, PAST_LIMIT};
use card::{
    NONDETERMINISTIC as MODE_NONDETERMINISTIC, PROBABILISTIC as MODE_PROBABILISTIC, Refusal,
};
use due_words::step_number;
use late::state::State;
use marks::Cursor;
use marks_on_a_card::kinds::{
    DOTS, INIT, NONDETERMINISTIC, NUMBER, PROBABILISTIC, SEMICOLON, SQUARE_CLOSE,
};
use parts::{number, sign};

// The mode becomes the value.
pub fn mode(card: &[u8], at: usize, state: &mut State) -> Result<usize, Refusal>
    ensures { ModeFrom card.now at (late_in state.old) (after state.new result) }
{
    let cursor = Cursor { at };
    let step = cursor.step(card);
    let mark = step.mark;
    let next = step.next;
    if mark.kind == NONDETERMINISTIC {
        state.value = MODE_NONDETERMINISTIC;
        return Ok(next.at);
    }
    if mark.kind == PROBABILISTIC {
        state.value = MODE_PROBABILISTIC;
        return Ok(next.at);
    }
    Err(Refusal {
        number: OUT_OF_SHAPE,
        place: mark.place,
    })
}

// Every range begins with this number.
const FIRST: usize = 0;

// 0..k, where k may be `most`; k becomes the value.
fn span(card: &[u8], at: usize, most: usize, state: &mut State) -> Result<usize, Refusal>
    ensures { SpanFrom card.now at most (late_in state.old) (after state.new result) }
{
    let step = step_number(card, at);
    let mark = step.mark;
    let next = step.next;
    if mark.kind != NUMBER {
        return Err(Refusal {
            number: OUT_OF_SHAPE,
            place: mark.place,
        });
    }
    if mark.value != FIRST {
        return Err(Refusal {
            number: OUT_OF_SHAPE,
            place: mark.place,
        });
    }
    let between = next.step(card);
    let dots = between.mark;
    let behind = between.next;
    if dots.kind != DOTS {
        return Err(Refusal {
            number: OUT_OF_SHAPE,
            place: dots.place,
        });
    }
    let last = step_number(card, behind.at);
    let top = last.mark;
    let end = last.next;
    if top.kind != NUMBER {
        return Err(Refusal {
            number: OUT_OF_SHAPE,
            place: top.place,
        });
    }
    if top.value > most {
        return Err(Refusal {
            number: PAST_LIMIT,
            place: top.place,
        });
    }
    state.value = top.value;
    Ok(end.at)
}

// 0..k] init l; of the states, or of the shared number: k goes to the top state's place and l to the start state's.
pub fn range(card: &[u8], at: usize, most: usize, state: &mut State) -> Result<usize, Refusal>
    ensures { RangeFrom card.now at most (late_in state.old) (after state.new result) }
{
    let values = span(card, at, most, state)?;
    let top = state.value;
    let close = sign(card, values, SQUARE_CLOSE)?;
    let init = sign(card, close, INIT)?;
    let last = number(card, init, top, state)?;
    let end = sign(card, last, SEMICOLON)?;
    state.top = top;
    state.start = state.value;
    Ok(end)
}
