// The moves that shifting values round the windows of an order makes, and the step to the next one.
// docs/RULES.md, 8.

#![tactic(auto)]

mod moves;
pub mod rematch;
