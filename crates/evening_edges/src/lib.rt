// The edges of document 02, 2026-13: whole evenings by seats told apart and by counts. Definitions and theorems only.
#![tactic(auto)]
