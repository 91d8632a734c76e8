// The count vectors of a table in order, the place of each, and positions, which are vectors with a value of the shared number: definitions and theorems only (document 02, 2026-08 and 2026-10).
#![tactic(auto)]
