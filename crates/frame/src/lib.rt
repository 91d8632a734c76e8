// What stands before a card's statements, read from its bytes.
#![tactic(auto)]

pub mod header;
pub mod shared;
