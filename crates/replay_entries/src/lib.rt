// One question of a list put to one entry under its C name, and all that can be seen of the answer held to what the
// list says. Here the entries that answer a code, a flag, a number or an index. docs/RULES.md, 1 to 5, 7, 11.

#![tactic(auto)]

pub mod index;
pub mod questions;
