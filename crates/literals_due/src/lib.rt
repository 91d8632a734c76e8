// What a literal says behind its seat word, and whether it is as due in a term of an exactly-one (document 02, 2026-01).
#![tactic(auto)]

ghost use Rattle.std.specs.Prelude.{◌≡◌, not, ◌&&◌, ◌||◌, eqb};
ghost use Rattle.literals_due.specs.Due.{due_number};

use packing::{IS, ISNT};

// What stands behind a seat word: the next cursor, the relation, d and where d stands.
#[derive(Clone, Copy)]
pub struct Tail {
    pub next: usize,
    pub relation: usize,
    pub d: usize,
    pub first: usize,
}

// In the i-th term seat i is d, and all others are not.
pub fn relation_due(i: usize, seat: usize) -> usize
    ensures { result ≡ due_number i seat }
{
    if seat == i { IS } else { ISNT }
}

// One literal more, against this d and the relation that is due.
pub fn as_due(due: bool, d: usize, relation: usize, t: Tail) -> bool
    ensures { result ≡ (due && (eqb t.d d && eqb t.relation relation)) }
{
    due && t.d == d && t.relation == relation
}

// One literal's relation more, against the first one's.
pub fn mixes(mixed: bool, first: usize, more: usize) -> bool
    ensures { result ≡ (mixed || not (eqb first more)) }
{
    mixed || first != more
}
