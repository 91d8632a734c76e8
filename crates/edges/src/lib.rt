// What document 01 and 02 mark as edges of cards, panels and boxes, each as a whole input and its answer: definitions that compute, and no code.
#![tactic(auto)]
