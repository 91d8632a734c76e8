// A card that has been read, as the program holds it: statements, flat guard nodes and flat branches in fixed arrays.
#![tactic(auto)]

pub mod limits;
pub mod refusals;

ghost use Rattle.std.specs.Prelude.{◌≡◌, get_or};
ghost use Rattle.card.specs.Laid.{no_statement as no_statement_said};

use limits::{BRANCH_PLACES, MOST_STATEMENTS, NODE_PLACES};

// a card's mode
pub const NONDETERMINISTIC: usize = 0;

pub const PROBABILISTIC: usize = 1;

// [] s1=own & guard -> branches: its guard has so many nodes (0: no guard), and it has so many branches.
#[derive(Clone, Copy)]
pub struct Statement {
    pub own: usize,
    pub nodes: usize,
    pub branches: usize,
}

// The number that all seats share has so many values (0: there is none), and starts at `initial`. Statement i's nodes stand from MOST_NODES * i on, the root last; its branches from MOST_BRANCHES * i on.
#[derive(Clone, Copy)]
pub struct Card {
    pub mode: usize,
    pub shared: usize,
    pub initial: usize,
    pub seats: usize,
    pub top: usize,
    pub start: usize,
    pub count: usize,
    pub statements: [Statement; MOST_STATEMENTS],
    pub nodes: [u32; NODE_PLACES],
    pub branches: [u32; BRANCH_PLACES],
}

// A card beside its arrays: what is handed on by value.
#[derive(Clone, Copy)]
pub struct Head {
    pub mode: usize,
    pub shared: usize,
    pub initial: usize,
    pub seats: usize,
    pub top: usize,
    pub start: usize,
    pub count: usize,
}

// Why something is refused: the number by which the document and C know it, and its place ("Refusal numbers").
#[derive(Clone, Copy)]
pub struct Refusal {
    pub number: u8,
    pub place: usize,
}

// What stands there where there is no statement.
pub fn no_statement() -> Statement
    ensures { result ≡ no_statement_said }
{
    Statement {
        own: 0,
        nodes: 0,
        branches: 0,
    }
}

// A number of one of a card's arrays, or 0 where there is none.
pub fn number_at(array: &[u32], i: usize) -> u32
    ensures { result ≡ get_or array.now i 0 }
{
    array.get(i).copied().unwrap_or(0)
}
