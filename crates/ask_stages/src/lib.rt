// What asking comes to on a card that was read into arrays, stage by stage: proofs only; there is no code here.
#![tactic(auto)]
