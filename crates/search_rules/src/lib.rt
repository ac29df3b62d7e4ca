// Definitions alone: specs/ says what the search by path is, proofs/ what holds of it whatever the code.

#![tactic(auto)]
