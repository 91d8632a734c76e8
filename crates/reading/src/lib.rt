// Definitions and theorems only: what reading a card means.
#![tactic(auto)]
