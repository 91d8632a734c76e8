// What an entry for C promises of its numbers and its room: definitions (specs/); there is no code here.
#![tactic(auto)]
