// Definitions alone: specs/ says what the words mean, proofs/ holds the laws that the floors above cite.

#![tactic(auto)]
