// The windows of an order of rows, and the cursor that a walk over them goes by. docs/RULES.md, 8 and 9.

#![tactic(auto)]

pub mod cursor;

use refusals::Refusal;

// The shortest window of a walk that shifts values round, and how many variants each has.
pub const REMATCH_LEAST: usize = 3;

pub const REMATCH_TRIES: usize = 2;

// The shortest window of a walk that lifts rows out; it has as many attempts as rows.
pub const EJECTION_LEAST: usize = 2;

// Where a walk over the windows stands: a start in the order, a length, a variant or an attempt, and
// the longest window. Laid out as C has it, since it is lent across that boundary.
#[repr(C)]
#[derive(Clone, Copy)]
pub struct CycleWindowCursor {
    pub start: usize,
    pub length: usize,
    pub variant: usize,
    pub longest: usize,
}

// What a step answers, and the cursor behind it: how many edits the next move has, or none where no move is left. A
// refusal leaves the cursor as it was.
#[derive(Clone, Copy)]
pub struct Step {
    pub next: CycleWindowCursor,
    pub answer: Result<Option<usize>, Refusal>,
}
