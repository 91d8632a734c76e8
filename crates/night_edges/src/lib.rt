// The edges of day and night (document 02, 2026-10), as whole inputs and answers: definitions that compute, and no code.
#![tactic(auto)]
