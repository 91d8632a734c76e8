// What stands at a place of a card, in bytes: classes of bytes, runs of them, beginnings, and what stands between marks.
#![tactic(auto)]

pub mod bytes;
pub mod gaps;
