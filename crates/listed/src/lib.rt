// The list of positions is complete and in order, and they are what the seatings of a table come to: theorems only (document 02, 2026-08 and 2026-10).
#![tactic(auto)]
