// What an entry has to say and what it promises: definitions (specs/) and what is proved of them (proofs/); there is no code here.
#![tactic(auto)]
