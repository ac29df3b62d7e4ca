// Reading a roster file: from bytes to records in lent cells. docs/RULES.md, 12.1 and 12.2.

#![tactic(auto)]

mod agreement;
mod cells;
mod header;
mod lines;
pub mod roster;

// A record's numbers.
#[derive(Clone, Copy)]
pub struct Listed {
    pub row: usize,
    pub value: usize,
    pub now: usize,
    pub capacity: Option<usize>,
    pub sequence: Option<usize>,
}

// A record, and the place behind its line.
#[derive(Clone, Copy)]
pub struct Line {
    pub numbers: Listed,
    pub next: usize,
}
