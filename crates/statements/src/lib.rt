// Statements, read from a card's bytes into the card's arrays: `]s1=` before the own state, the guard with the arrow, and the branches.
#![tactic(auto)]

ghost use Rattle.std.specs.Prelude.{◌+◌, ◌≤◌, ◌<◌};
ghost use Rattle.card.specs.Limits.{most_shared, most_nodes, node_places, most_statements};
ghost use Rattle.late.specs.State.{late_in, after};
ghost use Rattle.statements.specs.StatementHead.{OwnFrom, GuardedFrom};
ghost use Rattle.card.specs.Lent.{lent};
ghost use Rattle.statements.specs.OneStatement.{StatementFrom};
ghost use Rattle.statements.specs.Statements.{StatementsFrom};

use branches::{Bounds, branches as all_branches};
use card::Refusal;
use card::limits::{
    BRANCH_PLACES, MOST_BRANCHES, MOST_DEPTH, MOST_NODES, MOST_STATEMENTS, NODE_PLACES, ROW,
    ROW_PLACES,
};
use card::refusals::{OUT_OF_SHAPE, PAST_LIMIT};
use due_signs::{step_arrow, step_guard, step_square};
use guard::conjunction;
use items::Text;
use languages::card_language;
use late::state::{State, Stopped};
use marks_on_a_card::kinds::{AND, ARROW, ENDMODULE, EQUAL, SEAT, SQUARE_CLOSE, SQUARE_OPEN};
use parts::{number, run, sign};
use word_and_digit_looks::all_here;

// The guard, if there is one, and the arrow, on a card whose shared number has so many values (0: there is none). The guard's nodes stand
// from `used` on; their number becomes the value.
fn guarded(
    card: &[u8],
    at: usize,
    top: usize,
    values: usize,
    nodes: &mut [u32; NODE_PLACES],
    used: usize,
    state: &mut State,
) -> Result<usize, Refusal>
    requires most_nodes_bound { used + most_nodes ≤ node_places }
    requires values_le_most_shared { values ≤ most_shared }
    ensures { GuardedFrom card.now at top values (late_in state.old) nodes.old nodes.new used (after state.new result) }
{
    let step = step_guard(card, at);
    let mark = step.mark;
    let next = step.next;
    if mark.kind != AND {
        if mark.kind != ARROW {
            return Err(Refusal {
                number: OUT_OF_SHAPE,
                place: mark.place,
            });
        }
        state.value = 0;
        return Ok(next.at);
    }
    state.left = MOST_NODES;
    state.free = used;
    let language = card_language(values);
    let text = Text {
        bytes: card,
        top,
        language,
    };
    let read = match conjunction(&text, next.at, nodes, state, MOST_DEPTH) {
        Ok(read) => read,
        Err(Stopped) => return Err(state.stop),
    };
    let behind = step_arrow(card, read);
    let arrow = behind.mark;
    let end = behind.next;
    if arrow.kind != ARROW {
        return Err(Refusal {
            number: OUT_OF_SHAPE,
            place: arrow.place,
        });
    }
    state.value = MOST_NODES - state.left;
    Ok(end.at)
}

// ]s1= mark by mark, unless it stands right there.
fn owned(card: &[u8], at: usize, state: &mut State) -> Result<usize, Refusal>
    ensures { OwnFrom card.now at (late_in state.old) (after state.new result) }
{
    if all_here(card, at, b"]s1=") {
        return Ok(at + 4);
    }
    let dues = [(SQUARE_CLOSE, 0), (SEAT, 1), (EQUAL, 0)];
    run(card, at, &dues, state)
}

// A statement behind its `[`, the one at `index` on the card: its row, its nodes and its branches go to its places in the arrays.
fn statement(
    card: &[u8],
    at: usize,
    bounds: Bounds,
    rows: &mut [usize; ROW_PLACES],
    nodes: &mut [u32; NODE_PLACES],
    branches: &mut [u32; BRANCH_PLACES],
    index: usize,
    state: &mut State,
) -> Result<usize, Refusal>
    requires index_lt_most_statements { index < most_statements }
    requires values_le_most_shared { bounds.values ≤ most_shared }
    ensures { StatementFrom bounds card.now at (late_in state.old) (lent rows.old nodes.old branches.old) (lent rows.new nodes.new branches.new) index (after state.new result) }
{
    let row = index * ROW;
    let words = owned(card, at, state)?;
    let own = number(card, words, bounds.top, state)?;
    rows[row] = state.value;
    let guard = guarded(
        card,
        own,
        bounds.top,
        bounds.values,
        nodes,
        index * MOST_NODES,
        state,
    )?;
    rows[row + 1] = state.value;
    let list = all_branches(card, guard, bounds, branches, index * MOST_BRANCHES, state)?;
    rows[row + 2] = state.value;
    Ok(list)
}

// All statements, within the card's bounds, and the keyword behind them; the number of statements becomes the value.
pub fn statements(
    card: &[u8],
    at: usize,
    bounds: Bounds,
    rows: &mut [usize; ROW_PLACES],
    nodes: &mut [u32; NODE_PLACES],
    branches: &mut [u32; BRANCH_PLACES],
    state: &mut State,
) -> Result<usize, Refusal>
    requires values_le_most_shared { bounds.values ≤ most_shared }
    ensures { StatementsFrom bounds card.now at (late_in state.old) (lent rows.old nodes.old branches.old) (lent rows.new nodes.new branches.new) (after state.new result) }
{
    let mut next = sign(card, at, SQUARE_OPEN)?;
    let mut place = at;
    for count in 0..MOST_STATEMENTS {
        let read = statement(card, next, bounds, rows, nodes, branches, count, state)?;
        let step = step_square(card, read);
        let mark = step.mark;
        let behind = step.next;
        if mark.kind != SQUARE_OPEN {
            if mark.kind != ENDMODULE {
                return Err(Refusal {
                    number: OUT_OF_SHAPE,
                    place: mark.place,
                });
            }
            state.value = count + 1;
            return Ok(behind.at);
        }
        place = mark.place;
        next = behind.at;
    }
    Err(Refusal {
        number: PAST_LIMIT,
        place,
    })
}
