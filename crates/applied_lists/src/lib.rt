// What testing and applying a list as one act leaves, and what may be concluded of it: specs/Applying.antt,
// specs/OneAct.antt, proofs/OneAct.antt.

#![tactic(auto)]
