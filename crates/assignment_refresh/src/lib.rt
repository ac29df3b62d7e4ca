// Many rows of the lent index at once: listed rows taken out and put in, and the whole index built.
// docs/RULES.md, 2 and 3.

#![tactic(auto)]

pub mod build;
pub mod many;
