// What the kit has proved of the code, cited beside the promises: no code.
#![tactic(auto)]
