// The state of reading a card, which the readers lend each other.
use card::Refusal;

// The groups that are each symmetric for one number of seats only: how many the first of them wants, and its bracket;
// and the bracket of the first that wants another number.
#[derive(Clone, Copy)]
pub struct Groups {
    pub want: usize,
    pub first: usize,
    pub second: Option<usize>,
}

// The first refusal of 5, 6 and 7 so far that does not hang on the number of seats, and the groups before it.
#[derive(Clone, Copy)]
pub struct Late {
    pub refusal: Option<Refusal>,
    pub groups: Option<Groups>,
}

// The reader of a guard stopped, and the refusal stands in the lent state: so its answer fits two registers, and a
// bracket takes less stack than with the refusal in it.
#[derive(Clone, Copy)]
pub struct Stopped;

#[derive(Clone, Copy)]
pub struct State {
    // what is judged late
    pub late: Late,
    // the refusal of a guard whose reader has stopped; of another nothing asks for it
    pub stop: Refusal,
    // how many nodes the guard may still have, and where the next one is stored
    pub left: usize,
    pub free: usize,
    // what a part of the card hands back
    pub value: usize,
    // what the card's beginning says, or a range in it
    pub mode: usize,
    pub top: usize,
    pub start: usize,
    // how many values the shared number has (0: none is declared), and what it starts at
    pub shared: usize,
    pub initial: usize,
}
