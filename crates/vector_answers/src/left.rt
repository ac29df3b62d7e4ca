// What a call leaves of an output.
ghost use Rattle.std.specs.Prelude.{◌≡◌, length};
ghost use Rattle.basics.specs.Tests.{all_below};
ghost use Rattle.vector_answers.specs.Answers.{left_at, same_left};

use show::Page;
use vector_cells::before;
use vector_differences::same_cell;
use vector_words::word;

// What a cell of an output holds after a call: of the front, or what was there before.
fn left(front: &[usize], at: usize) -> usize
    ensures { result ≡ left_at front.now at }
{
    if at < front.len() {
        return front[at];
    }
    before(at)
}

fn same_left(page: &mut Page, what: &[u8], front: &[usize], seen: &[usize], at: usize) -> bool
    ensures { result ≡ same_left front.now seen.now at }
{
    same_cell(page, what, at, left(front, at), word(seen, at))
}

// An output of which a front was written, with the cells behind its room.
pub fn same_output(page: &mut Page, what: &[u8], front: &[usize], seen: &[usize]) -> bool
    ensures { result ≡ all_below (length seen.now) (same_left front.now seen.now) }
{
    for i in 0..seen.len() {
        if !same_left(page, what, front, seen, i) {
            return false;
        }
    }
    true
}
