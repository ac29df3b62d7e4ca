// The cursor: how a walk begins, which cursors are taken, and where each leads.
ghost use Rattle.std.specs.Prelude.{◌≡◌, min, max, ◌<◌, ◌≤◌};
ghost use Rattle.window_kinds.specs.Kinds.{rematching, reinserting, new_by, new_cursor, has_window, shift_of, advance_by, fits_by};
ghost use Rattle.window_kinds.specs.Stepping.{refused_step};

use crate::{CycleWindowCursor, EJECTION_LEAST, REMATCH_LEAST, Step};
use refusals::Refusal;

fn smaller(a: usize, b: usize) -> usize
    ensures { result ≡ min a b }
{
    if a < b {
        return a;
    }
    b
}

fn larger(a: usize, b: usize) -> usize
    ensures { result ≡ max a b }
{
    if a < b {
        return b;
    }
    a
}

// The cursor at the first window of an order of so many rows, where the shortest has `least` of them.
fn begin(least: usize, count: usize, size: usize) -> Result<CycleWindowCursor, Refusal>
    ensures { result ≡ new_by least count size }
{
    if 128 < count {
        return Err(Refusal::Sizes);
    }
    Ok(CycleWindowCursor {
        start: 0,
        length: least,
        variant: 0,
        longest: larger(2, smaller(size, count)),
    })
}

// The cursor that a walk over an order of so many rows begins with, for any rematch size.
pub fn new_cursor(count: usize, size: usize) -> Result<CycleWindowCursor, Refusal>
    ensures { result ≡ new_cursor rematching count size }
{
    begin(REMATCH_LEAST, count, size)
}

// The cursor that a walk begins with which lifts the rows of windows out and puts them back.
pub fn new_ejection_cursor(count: usize, size: usize) -> Result<CycleWindowCursor, Refusal>
    ensures { result ≡ new_cursor reinserting count size }
{
    begin(EJECTION_LEAST, count, size)
}

// The cursor is one for an order of so many rows, where the shortest window has `least` of them, and
// the cursor's own window so many tries.
pub fn cursor_fits(count: usize, least: usize, tries: usize, cursor: CycleWindowCursor) -> bool
    ensures { result ≡ fits_by count least tries cursor }
{
    let top = larger(least, cursor.longest);
    let widest = larger(2, count);
    (cursor.start <= count)
        & ((least <= cursor.length) & (cursor.length <= top))
        & (cursor.variant <= tries)
        & ((2 <= cursor.longest) & (cursor.longest <= widest))
}

// The cursor's window is one.
pub fn has_window(count: usize, cursor: CycleWindowCursor) -> bool
    requires { (cursor.start ≤ 128) × (cursor.length ≤ 129) }
    ensures { result ≡ has_window count cursor }
{
    (cursor.length <= cursor.longest) & (cursor.start + cursor.length <= count)
}

// By how many places the cursor's variant shifts.
pub fn shift_of(cursor: CycleWindowCursor) -> usize
    requires { 0 < cursor.length }
    ensures { result ≡ shift_of cursor }
{
    if cursor.variant == 0 {
        return 1;
    }
    cursor.length - 1
}

// The next try, else the next length, else the next start.
pub fn advance(
    count: usize,
    least: usize,
    tries: usize,
    cursor: CycleWindowCursor,
) -> CycleWindowCursor
    requires { (cursor.start ≤ 128) × (cursor.length ≤ 129) × (cursor.variant ≤ 129) }
    ensures { result ≡ advance_by count least tries cursor }
{
    if !has_window(count, cursor) {
        return CycleWindowCursor {
            start: cursor.start + 1,
            length: least,
            variant: 0,
            longest: cursor.longest,
        };
    }
    if cursor.variant < tries {
        return CycleWindowCursor {
            start: cursor.start,
            length: cursor.length,
            variant: cursor.variant + 1,
            longest: cursor.longest,
        };
    }
    CycleWindowCursor {
        start: cursor.start,
        length: cursor.length + 1,
        variant: 0,
        longest: cursor.longest,
    }
}

// A refusal of a step: the cursor comes back as it was.
pub fn refuse(cursor: CycleWindowCursor, refusal: Refusal) -> Step
    ensures { result ≡ refused_step cursor refusal }
{
    Step {
        next: cursor,
        answer: Err(refusal),
    }
}
