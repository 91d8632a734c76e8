// What asking has to say of a card's bytes, a question and seats: definitions (specs/) and what is proved of them (proofs/); there is no code here.
#![tactic(auto)]
