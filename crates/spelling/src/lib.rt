// Definitions and theorems only: how marks are spelt, and that the marks of a card are those.
#![tactic(auto)]
