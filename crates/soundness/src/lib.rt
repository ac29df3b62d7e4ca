// Theorems alone: that the final test keeps rosters sound stands in specs/, and why in proofs/.

#![tactic(auto)]
