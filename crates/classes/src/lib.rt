// Definitions and theorems only: public classes, which a spectator sees.
#![tactic(auto)]
