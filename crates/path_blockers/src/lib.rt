// Who blocks a row from a value, found in the index. docs/RULES.md, 6.3.

#![tactic(auto)]

pub mod blocker;
mod least;
pub mod rows;
