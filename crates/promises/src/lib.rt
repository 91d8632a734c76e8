// The promises of the requests of document 02 that have landed, beside those of `card_promises` and `entry_promises` (specs/), kept by citing what the other crates prove (proofs/); there is no code here.
#![tactic(auto)]
