// Quick looks for the marks that are due.
#![tactic(auto)]

pub mod look;
