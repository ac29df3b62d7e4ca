// What a search answers, and the same as numbers, for a boundary that carries nothing else; the limit of candidates and
// displacement from numbers. docs/RULES.md, 6 and 11.

#![tactic(auto)]

ghost use Rattle.std.specs.Prelude.{◌≡◌};
ghost use Rattle.assignment_tables.specs.Cells.{is_set};
ghost use Rattle.search_codes.specs.Codes.{limited, search_flag, search_count, search_asks};

use assignment_tables::EMPTY;
use refusals::Refusal;

// A move, whose list has so many edits, or no move; and how many asks were made.
#[derive(Clone, Copy)]
pub enum Search {
    Move(usize, usize),
    NoMove(usize),
}

// How many candidates of a row are offered: 2^64 - 1 is all of them.
pub fn limited(most: usize) -> Option<usize>
    ensures { result ≡ limited most }
{
    if most == EMPTY {
        return None;
    }
    Some(most)
}

// A request's displacement: 0 is no, any other number yes.
pub fn displaces(flag: u8) -> bool
    ensures { result ≡ is_set flag }
{
    flag != 0
}

// 1 with a move, 0 without; a refusal leaves what was there.
pub fn search_flag(answer: Result<Search, Refusal>, before: u8) -> u8
    ensures { result ≡ search_flag answer before }
{
    match answer {
        Err(_) => before,
        Ok(Search::Move(_, _)) => 1,
        Ok(Search::NoMove(_)) => 0,
    }
}

// How many edits the move has; without a move what was there.
pub fn search_count(answer: Result<Search, Refusal>, before: usize) -> usize
    ensures { result ≡ search_count answer before }
{
    match answer {
        Err(_) => before,
        Ok(Search::Move(count, _)) => count,
        Ok(Search::NoMove(_)) => before,
    }
}

// How many asks were made, with a move and without; a refusal leaves what was there.
pub fn search_asks(answer: Result<Search, Refusal>, before: usize) -> usize
    ensures { result ≡ search_asks answer before }
{
    match answer {
        Err(_) => before,
        Ok(Search::Move(_, asks)) => asks,
        Ok(Search::NoMove(asks)) => asks,
    }
}
