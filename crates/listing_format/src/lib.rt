// Definitions alone: specs/ says which bytes are a roster file, proofs/ that reading one gives back its records.

#![tactic(auto)]
