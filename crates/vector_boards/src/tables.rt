// Tables from words: so many segments, each of cells one by one, or of cells picked from a palette by
// numbers that look random and are the same for the same seed; a palette of one is a run.
ghost use Rattle.std.specs.Prelude.{◌≡◌};
ghost use Rattle.vector_words.specs.Words.{ahead};
ghost use Rattle.vector_cells.specs.Cells.{set_below};
ghost use Rattle.vector_boards.specs.Tables.{next_seed, colour, picked_at, behind_segment, segment_in, behind_table, table_in};

use vector_cells::{copy, set_cell};
use vector_words::{ahead, word};

// Where in the words a table goes on, and how many of its cells are there.
#[derive(Clone, Copy)]
pub struct Filled {
    pub at: usize,
    pub cells: usize,
}

fn next_seed(seed: usize) -> usize
    ensures { result ≡ next_seed seed }
{
    (seed % 2147483648 * 1103515245 + 12345) % 2147483648
}

// Which of so many colours a seed picks.
fn colour(seed: usize, colours: usize) -> usize
    ensures { result ≡ colour seed colours }
{
    if colours == 0 {
        return 0;
    }
    seed / 65536 % colours
}

// Picks each cell: the words are the seed, the number of colours, the colours.
fn pick(words: &[usize], at: usize, cells: &mut [usize], from: usize, count: usize)
    ensures { cells.new ≡ set_below (ahead from) (picked_at words.now at) count cells.old }
{
    let colours = word(words, ahead(at, 1));
    let mut seed = word(words, at);
    for i in 0..count {
        seed = next_seed(seed);
        set_cell(
            cells,
            ahead(from, i),
            word(words, ahead(at, ahead(2, colour(seed, colours)))),
        );
    }
}

// One segment: its number of cells, 0 for a copy or 1 for a choice, and what that reads.
fn segment(words: &[usize], cells: &mut [usize], filled: Filled) -> Filled
    ensures { (result ≡ behind_segment words.now filled) × (cells.new ≡ segment_in words.now filled cells.old) }
{
    let count = word(words, filled.at);
    let behind = ahead(filled.at, 2);
    let all = ahead(filled.cells, count);
    if word(words, ahead(filled.at, 1)) == 0 {
        copy(words, behind, cells, filled.cells, count);
        return Filled {
            at: ahead(behind, count),
            cells: all,
        };
    }
    pick(words, behind, cells, filled.cells, count);
    let colours = word(words, ahead(behind, 1));
    Filled {
        at: ahead(ahead(behind, 2), colours),
        cells: all,
    }
}

// A table: the number of its segments, and they.
pub fn table(words: &[usize], at: usize, cells: &mut [usize]) -> Filled
    ensures { (result ≡ behind_table words.now at) × (cells.new ≡ table_in words.now at cells.old) }
{
    let segments = word(words, at);
    let mut filled = Filled {
        at: ahead(at, 1),
        cells: 0,
    };
    for i in 0..segments {
        filled = segment(words, cells, filled);
    }
    filled
}
