// The edges of the program, of the spectator's line and of who may move, each as a whole input and its answer: definitions that compute, and no code.
#![tactic(auto)]
