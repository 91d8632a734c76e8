// What the spectator's entry has to say of a card's bytes, seats and classes: definitions (specs/) and what is proved of them (proofs/); there is no code here.
#![tactic(auto)]
