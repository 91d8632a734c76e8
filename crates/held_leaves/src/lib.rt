// A leaf of a guard held at counts: its counter against its bound, or the shared number against its value.
#![tactic(auto)]

ghost use Rattle.std.specs.Prelude.{◌≡◌, eqb};
ghost use Rattle.card.specs.Card.{is, isnt};
ghost use Rattle.card.specs.Laid.{either, leaf_of, relation_part, state_part};
ghost use Rattle.meaning.specs.Position.{position};
ghost use Rattle.meaning.specs.Seats.{literal};
ghost use Rattle.meaning.specs.Reduced.{no_of, counter_of, passes as passes_at};

use packing::{IS, SHARED, kind_of, relation_of, state_of};
use table::bound_of;

// Where there is no count there stands 0.
pub fn count_at(counts: &[usize], d: usize) -> usize
    ensures { result ≡ no_of counts.now d }
{
    counts.get(d).copied().unwrap_or(0)
}

// A test of the shared number.
fn shared_holds(node: u32, shared: usize) -> bool
    ensures { result ≡ literal (either is isnt (relation_part node)) (eqb shared (state_part node)) }
{
    let value = state_of(node);
    if relation_of(node) == IS {
        return shared == value;
    }
    shared != value
}

// Does the leaf in `node` hold for a seat in state `own`, of n seats? Its counter is held against its bound.
pub fn leaf_holds(node: u32, own: usize, n: usize, counts: &[usize], shared: usize) -> bool
    ensures { result ≡ passes_at (position counts.now shared) (counter_of n own (leaf_of node)) }
{
    if SHARED <= kind_of(node) {
        return shared_holds(node, shared);
    }
    let d = state_of(node);
    let no_d = count_at(counts, d);
    let bound = bound_of(node, own, n);
    if bound.sign == b'=' {
        return no_d == bound.number;
    }
    if bound.sign == b'>' {
        return bound.number < no_d;
    }
    no_d < bound.number
}
