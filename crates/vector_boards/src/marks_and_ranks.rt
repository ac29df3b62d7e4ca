// Cells as marks and as ranks.
ghost use Rattle.std.specs.Prelude.{◌%◌, ◌≡◌, set};
ghost use Rattle.vector_boards.specs.Tables.{to_marks, signed, to_ranks};

use vector_cells::byte;
use vector_words::word;

// The bytes of the first cells.
pub fn to_marks(cells: &[usize], count: usize, marks: &mut [u8])
    ensures { marks.new ≡ to_marks cells.now count marks.old }
{
    for i in 0..count {
        set_mark(marks, i, word(cells, i));
    }
}

pub fn set_mark(marks: &mut [u8], at: usize, cell: usize)
    ensures { marks.new ≡ set marks.old at (cell % 256) }
{
    if at < marks.len() {
        marks[at] = byte(cell);
    }
}

// A number of 64 bits as the signed one of the same bits.
fn signed(number: usize) -> i64
    ensures { result ≡ signed number }
{
    if number < 9223372036854775808 {
        return number as i64;
    }
    !((18446744073709551615 - number) as i64)
}

pub fn to_ranks(cells: &[usize], count: usize, ranks: &mut [i64])
    ensures { ranks.new ≡ to_ranks cells.now count ranks.old }
{
    for i in 0..count {
        set_rank(ranks, i, word(cells, i));
    }
}

pub fn set_rank(ranks: &mut [i64], at: usize, cell: usize)
    ensures { ranks.new ≡ set ranks.old at (signed cell) }
{
    if at < ranks.len() {
        ranks[at] = signed(cell);
    }
}
