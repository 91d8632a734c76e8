// A deck of cards: its bytes judged, taken apart, written and looked up: definitions (specs/) and what is proved of them (proofs/); there is no code here.
#![tactic(auto)]
