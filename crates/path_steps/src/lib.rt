// What a step of the search by path finds, and what it writes into the search's list.
// docs/RULES.md, 6.2 to 6.5.

#![tactic(auto)]

mod blockers;
pub mod displace;
pub mod free;
pub mod judge;
mod sides;

// What a row and a value come to on the way down: they fail, the row is free to take the value, or
// a required row blocks it.
#[derive(Clone, Copy)]
pub enum Prospect {
    Fails,
    Free,
    Blocked(usize),
}
