// The edges of tidying and adding as whole decks (document 02, 2026-12): statements (specs/) and proofs; there is no code here.
#![tactic(auto)]
