// The search by path on the way: what a try of a row does before its blocker is asked to make way, and
// what it does once an alternative of the blocker was found. docs/RULES.md, 6.2, 6.4 and 6.5.

#![tactic(auto)]

pub mod leaves;

// What a try comes to: nothing was found, with so many asks made in all, or a path was.
#[derive(Clone, Copy)]
pub enum Trail {
    Missed(usize),
    Found(Path),
}

// A path that was found: the asks made in all, and how many edits its list has.
#[derive(Clone, Copy)]
pub struct Path {
    pub asks: usize,
    pub length: usize,
}

// What trying a row comes to before its blocker is asked to make way: it is settled, or the row is
// stuck.
#[derive(Clone, Copy)]
pub enum Entered {
    Settled(Trail),
    Stuck(Stuck),
}

// A row that is stuck: who blocks it, the asks made in all, and how many edits the list has as
// displacement left it.
#[derive(Clone, Copy)]
pub struct Stuck {
    pub blocker: usize,
    pub asks: usize,
    pub length: usize,
}
