// Bare decimals as bytes, and where a field of a line of them ends. docs/RULES.md, 12.1.

#![tactic(auto)]

pub mod reading;
pub mod writing;
