// The tables and the roster that a roster file's records make. docs/RULES.md, 12.2 and 12.3.

#![tactic(auto)]

mod fill;
pub mod roster;
pub mod tables;
