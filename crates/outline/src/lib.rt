// What reading a card hands back beside arrays that the caller lends: the card's head, or why it is refused. A refusal leaves the arrays as zeros.
#![tactic(auto)]

ghost use Rattle.std.specs.Prelude.{◌≡◌};
ghost use Rattle.card.specs.Limits.{most_statements};
ghost use Rattle.card.specs.Rows.{rows_from};
ghost use Rattle.card.specs.Lent.{lent, none_lent};
ghost use Rattle.marks.specs.Step.{marks_at};
ghost use Rattle.reading.specs.Reading.{first_outside};
ghost use Rattle.late.specs.Settled.{settled};
ghost use Rattle.late.specs.State.{late_in};
ghost use Rattle.search.specs.Search.{searched as searched_said};
ghost use Rattle.outline.specs.Refusing.{Judged};

use card::limits::{BRANCH_PLACES, MOST_STATEMENTS, NODE_PLACES, ROW, ROW_PLACES};
use card::{Head, Refusal, Statement, no_statement};
use late::state::State;
use search::searched;
use seats_wanted::settle;

// The numbers of statements that were read go.
fn clear(
    rows: &mut [usize; ROW_PLACES],
    nodes: &mut [u32; NODE_PLACES],
    branches: &mut [u32; BRANCH_PLACES],
)
    ensures { lent rows.new nodes.new branches.new ≡ none_lent }
{
    rows.fill(0);
    nodes.fill(0);
    branches.fill(0);
}

// Why a card is refused on which reading stopped once statements were read: the stop, unless a mark outside the rules stands there or further on.
pub fn stopped(
    card: &[u8],
    stop: Refusal,
    rows: &mut [usize; ROW_PLACES],
    nodes: &mut [u32; NODE_PLACES],
    branches: &mut [u32; BRANCH_PLACES],
) -> Refusal
    ensures refusal { result ≡ searched_said stop.number stop.place (first_outside (marks_at 0 card.now stop.place)) }
    ensures memory { lent rows.new nodes.new branches.new ≡ none_lent }
{
    clear(rows, nodes, branches);
    searched(card, stop)
}

// A card that was read to its end: what is judged late decides, on its number of seats.
pub fn judged(
    head: Head,
    state: &State,
    rows: &mut [usize; ROW_PLACES],
    nodes: &mut [u32; NODE_PLACES],
    branches: &mut [u32; BRANCH_PLACES],
) -> Result<Head, Refusal>
    ensures { Judged head (settled head.seats (late_in state.now)) (lent rows.old nodes.old branches.old) (lent rows.new nodes.new branches.new) result }
{
    if let Err(due) = settle(state, head.seats) {
        clear(rows, nodes, branches);
        return Err(due);
    }
    Ok(head)
}

// The statements that stand in rows.
pub fn statements_in(rows: &[usize; ROW_PLACES]) -> [Statement; MOST_STATEMENTS]
    ensures { result ≡ rows_from rows.now 0 most_statements }
{
    let mut statements = [no_statement(); MOST_STATEMENTS];
    for i in 0..MOST_STATEMENTS {
        let row = i * ROW;
        statements[i] = Statement {
            own: rows[row],
            nodes: rows[row + 1],
            branches: rows[row + 2],
        };
    }
    statements
}
