// Numbers and cells held to those that are expected. The first difference is printed.

#![tactic(auto)]

ghost use Rattle.std.specs.Prelude.{◌≡◌, eqb};
ghost use Rattle.basics.specs.Tests.{all_below};
ghost use Rattle.vector_differences.specs.Sameness.{same_at};

use show::Page;
use vector_words::word;

// What stands in a flag and in a number before a call.
pub const FLAG_BEFORE: u8 = 77;

pub const NUMBER_BEFORE: usize = 7777777;

fn show_difference(page: &mut Page, expected: usize, seen: usize) {
    show::text(page, b": expected ");
    show::number(page, expected);
    show::text(page, b", seen ");
    show::number(page, seen);
    show::line(page);
}

// Whether a cell is the one expected; the place of one that is not is printed too.
pub fn same_cell(page: &mut Page, what: &[u8], at: usize, expected: usize, seen: usize) -> bool
    ensures { result ≡ eqb expected seen }
{
    if expected == seen {
        return true;
    }
    show::text(page, what);
    show::text(page, b" ");
    show::number(page, at);
    show_difference(page, expected, seen);
    false
}

pub fn same_number(page: &mut Page, what: &[u8], expected: usize, seen: usize) -> bool
    ensures { result ≡ eqb expected seen }
{
    if expected == seen {
        return true;
    }
    show::text(page, what);
    show_difference(page, expected, seen);
    false
}

fn same_word(page: &mut Page, what: &[u8], expected: &[usize], seen: &[usize], at: usize) -> bool
    ensures { result ≡ same_at expected.now seen.now at }
{
    same_cell(page, what, at, word(expected, at), word(seen, at))
}

// So many cells one by one.
pub fn same_cells(
    page: &mut Page,
    what: &[u8],
    expected: &[usize],
    seen: &[usize],
    count: usize,
) -> bool
    ensures { result ≡ all_below count (same_at expected.now seen.now) }
{
    for i in 0..count {
        if !same_word(page, what, expected, seen, i) {
            return false;
        }
    }
    true
}
