// Definitions and theorems only: reading a question.
#![tactic(auto)]
