// Guards held at the counts of a seating, and the units of a statement by where they end ("What a card means").
#![tactic(auto)]

ghost use Rattle.std.specs.Prelude.{◌≡◌, map, ◌+◌, min, take, drop};
ghost use Rattle.card.specs.Limits.{most_branches};
ghost use Rattle.card.specs.Laid.{guard_at, branch_of};
ghost use Rattle.meaning.specs.Position.{position};
ghost use Rattle.meaning.specs.ByCounts.{held_at};
ghost use Rattle.panel_numbers.specs.Taking.{units_to_each};

use card::limits::{MOST_BRANCHES, MOST_STATES};
use card::number_at;
use held_leaves::leaf_holds;
use packing::{AND, LEAF, NOT, end_of, left_of, op_of, right_of, units_of};

// Does the guard whose root is node `root` hold for a seat in state `own`, of n seats? Node numbers fall.
pub fn held(
    nodes: &[u32],
    root: usize,
    own: usize,
    n: usize,
    counts: &[usize],
    shared: usize,
) -> bool
    ensures { result ≡ held_at n own (position counts.now shared) (guard_at nodes.now root) }
{
    let node = number_at(nodes, root);
    let op = op_of(node);
    if root == 0 {
        return leaf_holds(node, own, n, counts, shared);
    }
    if op == LEAF {
        return leaf_holds(node, own, n, counts, shared);
    }
    let left = held(nodes, left_of(node, root), own, n, counts, shared);
    if op == NOT {
        return !left;
    }
    if op == AND {
        return left && held(nodes, right_of(node, root), own, n, counts, shared);
    }
    left || held(nodes, right_of(node, root), own, n, counts, shared)
}

// The units of `size` branches from `at` on, by where they end; no statement has more than MOST_BRANCHES.
pub fn units_to(branches: &[u32], at: usize, size: usize) -> [usize; MOST_STATES]
    ensures { result ≡ units_to_each (map branch_of (take (min size most_branches) (drop at branches.now))) }
{
    let mut units: [usize; MOST_STATES] = [0; MOST_STATES];
    let from_there = &branches[at.min(branches.len())..];
    for branch in from_there.iter().take(size.min(MOST_BRANCHES)) {
        units[end_of(*branch)] += units_of(*branch) as usize;
    }
    units
}
