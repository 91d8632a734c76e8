// What a card means, by seats and by counts: definitions (specs/) and what is proved of them (proofs/); there is no code here.
#![tactic(auto)]
