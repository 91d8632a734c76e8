// "Marks on a card": classes of bytes, digits as numbers, marks and their kinds, as definitions (specs/), with what is proved of them (proofs/); there is no
// code here.
#![tactic(auto)]

pub mod kinds;

// The digits from a place on: how many, and the number that they spell.
#[derive(Clone, Copy)]
pub struct Digits {
    pub count: usize,
    pub value: usize,
}
