// The final test of an edit list and the reinsertion test. docs/RULES.md, 3 and 5.

#![tactic(auto)]

pub mod entry;
pub mod test;
