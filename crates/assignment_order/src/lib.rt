// The rows that hold a value, in the order that windows are cut from. docs/RULES.md, 8.1.

#![tactic(auto)]

mod assigned;
pub mod listing;
