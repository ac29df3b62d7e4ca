// Whether a walk over windows has room for one more move; what it answers, and the cursor to go on
// from. docs/RULES.md, 8.8.

#![tactic(auto)]

pub mod codes;

ghost use Rattle.std.specs.Prelude.{◌≡◌, ◌≤◌};
ghost use Rattle.walk_answers.specs.Answers.{move_fits, stopped_walk, finished_walk};

use refusals::Refusal;
use window_kinds::CycleWindowCursor;

// How many moves and how many edits were written: as many as there was room for, or all that were left.
#[derive(Clone, Copy)]
pub enum Progress {
    Moves(usize, usize),
    Done(usize, usize),
}

// The answer, and the cursor to go on from.
#[derive(Clone, Copy)]
pub struct Walk {
    pub next: CycleWindowCursor,
    pub answer: Result<Progress, Refusal>,
}

// A walk that has written so many moves, with so many edits, has room for a move of so many more.
pub fn move_fits(most: usize, moves: usize, room: usize, edits: usize, count: usize) -> bool
    requires { edits ≤ room }
    ensures { result ≡ move_fits most moves room edits count }
{
    if moves == most {
        return false;
    }
    count <= room - edits
}

// The next move does not fit.
pub fn stop(cursor: CycleWindowCursor, moves: usize, edits: usize) -> Walk
    ensures { result ≡ stopped_walk cursor moves edits }
{
    Walk {
        next: cursor,
        answer: Ok(Progress::Moves(moves, edits)),
    }
}

// There is no next move.
pub fn finish(cursor: CycleWindowCursor, moves: usize, edits: usize) -> Walk
    ensures { result ≡ finished_walk cursor moves edits }
{
    Walk {
        next: cursor,
        answer: Ok(Progress::Done(moves, edits)),
    }
}
