// What writing and reducing have to say of a card's bytes: definitions (specs/); there is no code here.
#![tactic(auto)]
