// Answers as numbers, for a boundary that carries nothing else: a code, 0 or the number of a refusal, and what is
// written beside it where nothing is refused.
ghost use Rattle.std.specs.Prelude.{◌≡◌};
ghost use Rattle.refusals.specs.Codes.{code, yes_flag, some_flag, some_count};

use crate::Refusal;

// 0, or the number of the refusal.
pub fn code<T: Copy>(answer: Result<T, Refusal>) -> u8
    ensures { result ≡ code answer }
{
    match answer {
        Ok(_) => 0,
        Err(refusal) => refusal.number(),
    }
}

// 1 for yes, 0 for no; a refusal leaves what was there.
pub fn yes_flag(answer: Result<bool, Refusal>, before: u8) -> u8
    ensures { result ≡ yes_flag answer before }
{
    match answer {
        Ok(true) => 1,
        Ok(false) => 0,
        Err(_) => before,
    }
}

// 1 where a list is given, 0 where there is none to give; a refusal leaves what was there.
pub fn some_flag(answer: Result<Option<usize>, Refusal>, before: u8) -> u8
    ensures { result ≡ some_flag answer before }
{
    match answer {
        Ok(Some(_)) => 1,
        Ok(None) => 0,
        Err(_) => before,
    }
}

// How long the list is; without a list what was there.
pub fn some_count(answer: Result<Option<usize>, Refusal>, before: usize) -> usize
    ensures { result ≡ some_count answer before }
{
    match answer {
        Ok(Some(count)) => count,
        Ok(None) => before,
        Err(_) => before,
    }
}

// A yes or no as a code; `flag` becomes 1 or 0, and a refusal leaves it as it was.
pub fn question_told(answer: Result<bool, Refusal>, flag: &mut u8) -> u8
    ensures { (result ≡ code answer) × (flag.new ≡ yes_flag answer flag.old) }
{
    *flag = yes_flag(answer, *flag);
    code(answer)
}

// A list as a code; `given` becomes 1 with a list and 0 without, `count` its length. What there is not is left as it was.
pub fn list_told(answer: Result<Option<usize>, Refusal>, given: &mut u8, count: &mut usize) -> u8
    ensures { (result ≡ code answer) × ((given.new ≡ some_flag answer given.old) × (count.new ≡ some_count answer count.old)) }
{
    *given = some_flag(answer, *given);
    *count = some_count(answer, *count);
    code(answer)
}
