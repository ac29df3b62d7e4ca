// The engine for programs in other languages: each entry under a C name, on numbers and slices. A
// slice crosses as a pointer and a number of cells. An export answers a code, 0 or the number of a
// refusal, and writes its other answers through references to single numbers; include/turepawon.h
// says the same to C, and the static library, the crate `engine_c`, exports them. Nothing is decided here.
// docs/RULES.md, 11.

#![tactic(auto)]

pub mod abi;
pub mod apply;
pub mod calendars;
pub mod conflicts;
pub mod ejections;
pub mod index;
pub mod lent;
pub mod questions;
pub mod search;
pub mod windows;
