// Those of the promises that need no entry (specs/), kept by citing what the other crates prove (proofs/); there is no code here.
#![tactic(auto)]
