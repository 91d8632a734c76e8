// The numbers of a panel in one table, and who may take a statement, from the arrays that a card lies in: definitions and what is proved of numbers stored one after another; there is no code here.
#![tactic(auto)]
