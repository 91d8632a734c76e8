// What tidying a box and adding a card to it have to say (document 02, 2026-12): definitions (specs/) and what is proved of them (proofs/); there is no code here.
#![tactic(auto)]
