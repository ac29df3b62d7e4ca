// Rows put in order, one by one, in the front of a lent slice. docs/RULES.md, 8.1 and 10.1.

#![tactic(auto)]

pub mod compare;
pub mod insert;

// The rows of a conflict, required ones first; the rows of windows, by position.
#[derive(Clone, Copy)]
pub enum Ranking {
    Conflict,
    Position,
}
