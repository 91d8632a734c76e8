// What document 02 marks as edges of questions, each as a whole input and its answer: definitions that compute, and no code.
#![tactic(auto)]
