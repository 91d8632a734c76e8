// The text of a panel and a room that it fits into, and what the panel program reads and prints ("Texts, byte for byte"): definitions (specs/) and what is proved of them (proofs/); there is no code here.
#![tactic(auto)]
