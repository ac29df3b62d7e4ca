// The search by path: an optional chain of moved rows that makes room for one row and one value.
// docs/RULES.md, 6 and 7.

#![tactic(auto)]

pub mod entry;
