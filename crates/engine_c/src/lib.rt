// The static library for programs in other languages: each function of the crate `engine` under its C name, with its
// clauses again. include/turepawon.h says the same to C. Nothing is done here. docs/RULES.md, 11.

#![tactic(auto)]

mod abi;
mod apply;
mod calendars;
mod conflicts;
mod ejections;
mod index;
mod lent;
mod questions;
mod search;
mod windows;
