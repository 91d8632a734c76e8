// The limits of a card ("What the box holds"), of a deck and of public classes (document 02, 2026-02 and 2026-05); specs/Limits.antt has the same numbers for the contracts.

pub const CARD_BYTES: usize = 16384;

pub const MOST_SEATS: usize = 16;

pub const TOP_STATE: usize = 7;

pub const MOST_STATES: usize = TOP_STATE + 1;

// of the number that all seats share (2026-10)
pub const TOP_SHARED: usize = 7;

pub const MOST_SHARED: usize = TOP_SHARED + 1;

pub const MOST_STATEMENTS: usize = 32;

pub const MOST_BRANCHES: usize = 8;

pub const MOST_NODES: usize = 32;

pub const MOST_DEPTH: usize = 8;

pub const NUMBER_DIGITS: usize = 6;

pub const FURTHER_DIGITS: usize = 6;

pub const WORD_DIGITS: usize = 5;

pub const WEIGHT_DIGITS: usize = 2;

// a number of NUMBER_DIGITS digits is below this
pub const NUMBERS: usize = 1_000_000;

pub const NODE_PLACES: usize = MOST_STATEMENTS * MOST_NODES;

pub const BRANCH_PLACES: usize = MOST_STATEMENTS * MOST_BRANCHES;

// what a branch sets the shared number to: nothing, or one of its values
pub const SET_PLACES: usize = MOST_SHARED + 1;

// a statement's row: its own state, how many nodes, how many branches
pub const ROW: usize = 3;

pub const ROW_PLACES: usize = MOST_STATEMENTS * ROW;

pub const DECK_BYTES: usize = 65535;

pub const MOST_CARDS: usize = 64;

pub const COUNT_BYTES: usize = 1;

pub const ENTRY_BYTES: usize = 8;

// an entry starts with its card number; its other fields stand from here on in it
pub const OFFSET_AT: usize = 2;

pub const SIZE_AT: usize = 4;

pub const FLAG_AT: usize = 6;

pub const ZERO_BYTE_AT: usize = 7;

pub const EXPANSION_FROM: usize = 65536;

pub const TOP_CLASS: usize = 7;

pub const PUBLIC_CLASSES: usize = TOP_CLASS + 1;
