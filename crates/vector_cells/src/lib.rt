// Cells of a lent slice, set one by one: copied from a line's words, or with what stands there before a call.

#![tactic(auto)]

ghost use Rattle.std.specs.Prelude.{◌%◌, ◌≡◌, length, set};
ghost use Rattle.vector_words.specs.Words.{ahead};
ghost use Rattle.vector_cells.specs.Cells.{set_below, copied_at, before_at, filled_before, output_before};

use vector_words::{ahead, word};

// The cells of an output: those that a call may not touch stand behind its room.
pub const OUTPUT: usize = 140;

pub fn set_cell(cells: &mut [usize], at: usize, cell: usize)
    ensures { cells.new ≡ set cells.old at cell }
{
    if at < cells.len() {
        cells[at] = cell;
    }
}

// Copies words one by one.
pub fn copy(words: &[usize], at: usize, cells: &mut [usize], from: usize, count: usize)
    ensures { cells.new ≡ set_below (ahead from) (copied_at words.now at) count cells.old }
{
    for i in 0..count {
        set_cell(cells, ahead(from, i), word(words, ahead(at, i)));
    }
}

pub fn byte(number: usize) -> u8
    ensures { result ≡ number % 256 }
{
    (number % 256) as u8
}

// What stands in a cell of an output before a call: no row, no value and no key of the list.
pub fn before(at: usize) -> usize
    ensures { result ≡ before_at at }
{
    7000000 + at % 1000000
}

// Fills a slice with what stands there before a call.
pub fn fill_before(cells: &mut [usize])
    ensures { cells.new ≡ filled_before (length cells.old) cells.old }
{
    for i in 0..cells.len() {
        set_cell(cells, i, before(i));
    }
}

// An output before a call.
pub fn output() -> [usize; OUTPUT]
    ensures { result ≡ output_before }
{
    let mut cells = [0usize; OUTPUT];
    fill_before(&mut cells);
    cells
}
