// What a list of the original's answers lends its questions: tables, an index and a roster, read from a line's words or
// changed in a cell.

#![tactic(auto)]

pub mod board;
pub mod marks_and_ranks;
pub mod tables;

// The most cells of each slice that is lent: 129 rows of 64 values, 128 of 65, and 64 cells more.
pub const MARKS: usize = 52000;

pub const KEYS: usize = 17000;

pub const RANKS: usize = 400;

pub const RECORDS: usize = 800;

pub const MEMBERS: usize = 500;

pub const ROSTER: usize = 200;

// Of the slices that are lent now: the shape, and how many cells of each count.
#[derive(Clone, Copy)]
pub struct Lent {
    pub rows: usize,
    pub values: usize,
    pub edge_rule: u8,
    pub marks: usize,
    pub keys: usize,
    pub ranks: usize,
    pub records: usize,
    pub members: usize,
    pub roster: usize,
}
