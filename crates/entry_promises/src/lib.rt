// The promises of document 01, and of the spectator's request, that follow from what the entries say (specs/), kept by citing what the other crates prove (proofs/); there is no code here.
#![tactic(auto)]
