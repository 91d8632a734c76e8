// Definitions and theorems only: the two texts of a card, the written card and the reduced program ("Texts, byte for byte").
#![tactic(auto)]
