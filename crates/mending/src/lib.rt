// What mending a box has to say (document 02, 2026-09): definitions (specs/) and what is proved of them (proofs/). The only code is the names of the rules.
#![tactic(auto)]

// The rules that an entry can break, by their numbers in the list (specs/Rules.antt).
#[derive(Clone, Copy)]
pub enum Rule {
    Flags = 1,
    Number = 2,
    Range = 3,
    Card = 4,
}
