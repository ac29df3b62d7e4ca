// The fields of a roster file, and where each ends. docs/RULES.md, 12.1 and 12.2.

#![tactic(auto)]

pub mod fields;

// A field that may be blank: its number, if there is one, and the place behind.
#[derive(Clone, Copy)]
pub struct Field {
    pub key: Option<usize>,
    pub next: usize,
}

// A field that may not be blank: its number, and the place behind.
#[derive(Clone, Copy)]
pub struct Needed {
    pub number: usize,
    pub next: usize,
}
