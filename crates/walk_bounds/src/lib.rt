// What the code that goes through the others' counts asks for, and that no sum runs over: definitions and theorems only (document 02, 2026-08).
#![tactic(auto)]
