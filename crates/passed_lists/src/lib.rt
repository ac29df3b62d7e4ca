// What lists that pass mean for roster and index, by what the entries answer and leave: specs/Passed.antt, proofs/Passed.antt.

#![tactic(auto)]
