// The edits that lift the rows of a window out and put them back otherwise. docs/RULES.md, 9.

#![tactic(auto)]

pub mod eject;
