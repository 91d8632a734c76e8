// What showing a panel, and the program, have to say of a card's bytes and seats: definitions (specs/) and what is proved of them (proofs/); there is no code here.
#![tactic(auto)]
