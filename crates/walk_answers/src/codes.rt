// A walk's answer as numbers, for a boundary that carries nothing else: what is written beside its code where nothing is
// refused.
ghost use Rattle.std.specs.Prelude.{◌≡◌};
ghost use Rattle.walk_answers.specs.Codes.{walk_flag, walk_moves, walk_edits};

use crate::Progress;
use refusals::Refusal;

// 1 where no move is left, 0 where one is; a refusal leaves what was there.
pub fn walk_flag(answer: Result<Progress, Refusal>, before: u8) -> u8
    ensures { result ≡ walk_flag answer before }
{
    match answer {
        Ok(Progress::Moves(_, _)) => 0,
        Ok(Progress::Done(_, _)) => 1,
        Err(_) => before,
    }
}

// How many moves were written; a refusal leaves what was there.
pub fn walk_moves(answer: Result<Progress, Refusal>, before: usize) -> usize
    ensures { result ≡ walk_moves answer before }
{
    match answer {
        Ok(Progress::Moves(moves, _)) => moves,
        Ok(Progress::Done(moves, _)) => moves,
        Err(_) => before,
    }
}

// How many edits these moves have in all; a refusal leaves what was there.
pub fn walk_edits(answer: Result<Progress, Refusal>, before: usize) -> usize
    ensures { result ≡ walk_edits answer before }
{
    match answer {
        Ok(Progress::Moves(_, edits)) => edits,
        Ok(Progress::Done(_, edits)) => edits,
        Err(_) => before,
    }
}
