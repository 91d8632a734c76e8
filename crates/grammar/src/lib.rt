// Definitions and theorems only: the grammar of cards, and that reading follows it, each refusal exactly.
#![tactic(auto)]
