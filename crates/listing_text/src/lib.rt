// What the listing program writes: a header and a line for each edit, or a refusal. docs/RULES.md,
// 12.4.

#![tactic(auto)]

pub mod moves;
pub mod pieces;
