// Definitions and theorems only: the lines of a panel are in order, and a panel can be read off its text.
#![tactic(auto)]
