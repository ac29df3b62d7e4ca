// A roster file's bytes to tables and an index in lent slices: what every program over a roster file begins with.
// docs/RULES.md, 12.1 to 12.3.

#![tactic(auto)]

mod index;
pub mod opening;

// Room for an input: a byte more than a roster file may have, so that one that is too long is seen to be.
pub const INPUT_ROOM: usize = 65537;

// What the scratch for records, flags and keys must hold: enough for any file.
pub const CELLS_ROOM: usize = 51100;

pub const MARKS_ROOM: usize = 49792;

pub const KEYS_ROOM: usize = 16384;
