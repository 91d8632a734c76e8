// What an entry says of a card's bytes: definitions (specs/) and what is proved of them (proofs/); there is no code here.
#![tactic(auto)]
