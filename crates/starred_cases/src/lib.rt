// The worked examples of the rules: specs/Cases.antt has the table and its theorem.

#![tactic(auto)]
