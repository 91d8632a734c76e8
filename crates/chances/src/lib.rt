// The chance that a question becomes true within some steps, and the rows that hold it for every position: definitions and theorems only (document 02, 2026-08 and 2026-10).
#![tactic(auto)]
