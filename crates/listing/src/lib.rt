// A roster file's bytes to the bytes of its listing. docs/RULES.md, 12.

#![tactic(auto)]

pub mod entry;
mod windows;

// What an output must hold: enough for any file.
pub const OUTPUT_ROOM: usize = 102423;
