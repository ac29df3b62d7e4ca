// The windows of an order whose rows are lifted out and put back, walked. docs/RULES.md, 9.4 to 9.6.

#![tactic(auto)]

pub mod reinsert;
mod tries;
