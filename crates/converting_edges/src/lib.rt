// The edges of converting a box (document 02, 2026-11), each as a whole deck and what is made of it: definitions that compute, and no code.
#![tactic(auto)]
