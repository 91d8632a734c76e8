// A whole question, from its bytes, on a card of so many seats with this top state and so many values of its shared number (document 02, 2026-01
// and 2026-10).
#![tactic(auto)]

ghost use Rattle.std.specs.Prelude.{◌≡◌, ◌≤◌};
ghost use Rattle.card.specs.Limits.{most_seats, most_shared};
ghost use Rattle.asking.specs.Asking.{question_of, in_question as in_question_said};
ghost use Rattle.card.specs.Refusals.{not_due};
ghost use Rattle.card.specs.Verdict.{refusal_at};
ghost use Rattle.question.specs.QuestionRead.{QuestionRead};

use card::Refusal;
use card::limits::{CARD_BYTES, MOST_DEPTH, MOST_NODES, NODE_PLACES};
use card::refusals::{OUT_OF_SHAPE, TOO_LONG};
use guard::expression;
use items::Text;
use languages::question_language;
use late::first_state;
use late::state::Stopped;
use marks::Cursor;
use marks_on_a_card::kinds::END;
use search::searched;
use seats_wanted::settle;

// The place of the root, where the question is understood: its nodes stand from the first place on. Or a card's number for what is wrong, without the
// twenty that a question's refusals have more, and its place.
pub fn question_into(
    question: &[u8],
    nodes: &mut [u32; NODE_PLACES],
    seats: usize,
    top: usize,
    values: usize,
) -> Result<usize, Refusal>
    requires le_seats { (1 ≤ seats) × (seats ≤ most_seats) }
    requires values_le_most_shared { values ≤ most_shared }
    ensures { QuestionRead (question_of seats top values question.now) nodes.old nodes.new result }
{
    if question.len() > CARD_BYTES {
        return Err(Refusal {
            number: TOO_LONG,
            place: 0,
        });
    }
    let mut state = first_state(MOST_NODES);
    let language = question_language(values);
    let text = Text {
        bytes: question,
        top,
        language,
    };
    let next = match expression(&text, 0, nodes, &mut state, MOST_DEPTH) {
        Ok(next) => next,
        Err(Stopped) => return Err(searched(question, state.stop)),
    };
    let step = Cursor { at: next }.step(question);
    let mark = step.mark;
    if mark.kind != END {
        let behind = Refusal {
            number: OUT_OF_SHAPE,
            place: mark.place,
        };
        return Err(searched(question, behind));
    }
    settle(&state, seats)?;
    Ok(state.free - 1)
}

// What the number of a question's refusal has more than a card's.
const IN_QUESTION: u8 = 20;

// Why a question is refused, in its own numbers.
pub fn in_question(refusal: Refusal) -> Refusal
    requires { refusal.number ≤ not_due }
    ensures { result ≡ refusal_at (in_question_said refusal.number) refusal.place }
{
    Refusal {
        number: IN_QUESTION + refusal.number,
        place: refusal.place,
    }
}
