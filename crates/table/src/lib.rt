// The table of counter tests ("What a card means", second part), place by place.
#![tactic(auto)]

ghost use Rattle.std.specs.Prelude.{◌≡◌, Bool, eqb};
ghost use Rattle.card.specs.Card.{everyone, others, all, any, is, isnt};
ghost use Rattle.card.specs.Laid.{either, leaf_of};
ghost use Rattle.meaning.specs.Reduced.{equal_to as equal_to_said, more_than as more_than_said, less_than as less_than_said, table, counter_of};
ghost use Rattle.table.specs.Bounds.{bound_row, bound_of as bound_of_said};

use packing::{ALL, EVERYONE, IS, OTHERS, kind_of, relation_of, sign_of, state_of};

// What a counter is held against: `=`, `>` or `<`, and a number.
#[derive(Clone, Copy)]
pub struct Bound {
    pub sign: u8,
    pub number: usize,
}

fn equal_to(number: usize) -> Bound
    ensures { result ≡ bound_row (equal_to_said number) }
{
    Bound { sign: b'=', number }
}

fn more_than(number: usize) -> Bound
    ensures { result ≡ bound_row (more_than_said number) }
{
    Bound { sign: b'>', number }
}

fn less_than(number: usize) -> Bound
    ensures { result ≡ bound_row (less_than_said number) }
{
    Bound { sign: b'<', number }
}

// The table of counter tests, place by place: the column of everyone.
fn everyone_bound(sign: usize, relation: usize, seats: usize) -> Bound
    ensures { (itself : Bool) → result ≡ bound_row (table seats everyone itself (either all any sign) (either is isnt relation)) }
{
    if sign == ALL {
        if relation == IS {
            return equal_to(seats);
        }
        return equal_to(0);
    }
    if relation == IS {
        return more_than(0);
    }
    less_than(seats)
}

// And those of others, of n seats: where d is the statement's own state, a seat that takes it counts itself.
fn others_bound(sign: usize, relation: usize, own: usize, d: usize, n: usize) -> Bound
    ensures { result ≡ bound_row (table n others (eqb own d) (either all any sign) (either is isnt relation)) }
{
    if own == d {
        if sign == ALL {
            if relation == IS {
                return equal_to(n);
            }
            return equal_to(1);
        }
        if relation == IS {
            return more_than(1);
        }
        return less_than(n);
    }
    let less = n.saturating_sub(1);
    if sign == ALL {
        if relation == IS {
            return equal_to(less);
        }
        return equal_to(0);
    }
    if relation == IS {
        return more_than(0);
    }
    less_than(less)
}

// The test that the leaf in `node` becomes in a statement of local state `own`: a group by the table, exactly one seat as no_d=1. A test of the shared number is of no
// counter, and its bound is not asked for.
pub fn bound_of(node: u32, own: usize, seats: usize) -> Bound
    ensures { result ≡ bound_row (bound_of_said (counter_of seats own (leaf_of node))) }
{
    let kind = kind_of(node);
    let sign = sign_of(node);
    let relation = relation_of(node);
    let d = state_of(node);
    if kind == EVERYONE {
        return everyone_bound(sign, relation, seats);
    }
    if kind == OTHERS {
        return others_bound(sign, relation, own, d, seats);
    }
    equal_to(1)
}
