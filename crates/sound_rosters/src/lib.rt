// Whether a whole roster is sound. docs/RULES.md, 4.

#![tactic(auto)]

pub mod entry;
mod sound;
