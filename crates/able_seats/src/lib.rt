// How many seats may take a statement, at counts ("What a card means"), and the first of a card's statements that one may take (document 02, 2026-07).
#![tactic(auto)]

ghost use Rattle.std.specs.Prelude.{◌≡◌, ◌+◌, min, ◌≤◌};
ghost use Rattle.card.specs.Laid.{guard_of};
ghost use Rattle.meaning.specs.Position.{position};
ghost use Rattle.panel_numbers.specs.Taking.{takers};
ghost use Rattle.card.specs.Limits.{most_statements};
ghost use Rattle.able_seats.specs.FirstRow.{first_row};
ghost use Rattle.able_seats.specs.Moved.{place_of};

use card::Head;
use card::limits::{MOST_NODES, NODE_PLACES, ROW, ROW_PLACES};
use counting::held;
use held_leaves::count_at;

// The place `more` behind `at`, or any place behind the nodes where that is behind them.
fn place_behind(len: usize, at: usize, more: usize) -> usize
    ensures { min result len ≡ min (at + more) len }
{
    at.saturating_add(more)
}

// How many of n seats may take a statement of local state `own` whose guard has `size` nodes from `at` on (0: no guard).
pub fn able(
    nodes: &[u32],
    at: usize,
    size: usize,
    own: usize,
    n: usize,
    counts: &[usize],
    shared: usize,
) -> usize
    ensures { result ≡ takers n (position counts.now shared) own (guard_of nodes.now at size) }
{
    let no_own = count_at(counts, own);
    if no_own == 0 {
        return 0;
    }
    if size == 0 {
        return no_own;
    }
    let root = place_behind(nodes.len(), at, size - 1);
    if !held(nodes, root, own, n, counts, shared) {
        return 0;
    }
    no_own
}

// The first statement that some seat may take, by its place on the card from 1, at counts and the shared number beside them; those behind it are not looked at.
pub fn first_able<'a>(
    head: Head,
    rows: &'a [usize; ROW_PLACES],
    nodes: &'a [u32; NODE_PLACES],
    counts: &'a [usize],
    shared: usize,
) -> Option<usize>
    requires { head.count ≤ most_statements }
    ensures { result ≡ place_of (first_row head.seats (position counts.now shared) nodes.now rows.now 0 head.count) }
{
    for i in 0..head.count {
        let from = i * ROW;
        let able = able(
            nodes,
            i * MOST_NODES,
            rows[from + 1],
            rows[from],
            head.seats,
            counts,
            shared,
        );
        if able != 0 {
            return Some(i + 1);
        }
    }
    None
}
