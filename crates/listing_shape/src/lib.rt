// A roster file opened: its records, and how many rows and values they name. docs/RULES.md, 12.1 to
// 12.3.

#![tactic(auto)]

use assignment_tables::Shape;

mod counts;
pub mod opening;

// A roster file that is opened: the shape of the records' tables, and how many records there are.
#[derive(Clone, Copy)]
pub struct RosterFile {
    pub shape: Shape,
    pub count: usize,
}
