// Definitions and theorems only: a written card, read again.
#![tactic(auto)]
