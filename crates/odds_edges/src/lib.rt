// The edges of document 02, 2026-08, as whole inputs and answers: definitions and theorems only.
#![tactic(auto)]
