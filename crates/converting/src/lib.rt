// What converting a box has to say (document 02, 2026-11): definitions (specs/) and what is proved of them (proofs/); there is no code here.
#![tactic(auto)]
