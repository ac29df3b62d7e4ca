// Board T, written into lent slices of zeros.
ghost use Rattle.std.specs.Prelude.{◌≤◌, ◌<◌, ◌≡◌, length, replicate};
ghost use Rattle.blackboard.specs.BoardT.{tables_t};
ghost use Rattle.show_index.specs.Packed.{cell_marks, cell_keys, cells_keys, row_marks};

use assignment_tables::{Shape, Tables, cells, layout};

pub const BOARD_T: Shape = Shape {
    rows: 4,
    values: 3,
    edge_rule: 0,
};

// How long board T's slices are: an array's length cannot be a call of the layout's functions.
pub const MARKS_OF_T: usize = 328;

pub const KEYS_OF_T: usize = 24;

pub const RANKS_OF_T: usize = 8;

// Its index has five columns of 4 cells, and three parts of 5.
pub const RECORDS_OF_T: usize = 20;

pub const MEMBERS_OF_T: usize = 15;

// The value is a candidate of the row, legal for it, and its own capacity key.
fn open_cell(marks: &mut [u8], keys: &mut [usize], row: usize, value: usize)
    requires in_bounds { (328 ≤ length marks.old) × (24 ≤ length keys.old) }
    requires row_bound { (row < 4) × (value < 3) }
    ensures { (marks.new ≡ cell_marks row value marks.old) × (keys.new ≡ cell_keys row value keys.old) }
{
    let candidate = cells::cell(4, 64, layout::candidates_start(BOARD_T), row, value);
    let legal = cells::cell(4, 3, layout::legal_start(BOARD_T), row, value);
    let given = cells::cell(4, 3, layout::capacity_given_start(BOARD_T), row, value);
    let key = cells::cell(4, 3, layout::capacity_start(BOARD_T), row, value);
    marks[candidate] = value as u8;
    marks[legal] = 1;
    marks[given] = 1;
    keys[key] = value;
}

// The row may be empty, counts 3 candidates, and is open to every value.
fn open_row(marks: &mut [u8], keys: &mut [usize], row: usize)
    requires in_bounds { (328 ≤ length marks.old) × (24 ≤ length keys.old) }
    requires row_bound { row < 4 }
    ensures { (marks.new ≡ row_marks row marks.old) × (keys.new ≡ cells_keys row 3 keys.old) }
{
    let may_empty = layout::may_empty_start(BOARD_T);
    let counts = layout::counts_start(BOARD_T);
    marks[may_empty + row] = 1;
    marks[counts + row] = 3;
    for value in 0..3 {
        open_cell(marks, keys, row, value);
    }
}

pub fn pack_t(marks: &mut [u8], keys: &mut [usize])
    requires { (marks.old ≡ replicate 328 0) × (keys.old ≡ replicate 24 0) }
    ensures { (marks.new ≡ tables_t.marks) × (keys.new ≡ tables_t.keys) }
{
    let required = layout::required_start(BOARD_T);
    marks[required] = 1;
    marks[required + 1] = 1;
    for row in 0..4 {
        open_row(marks, keys, row);
    }
}

// Board T as it is lent, once it is packed.
pub fn lent_t<'a>(marks: &'a [u8], keys: &'a [usize], ranks: &'a [i64]) -> Tables<'a>
    ensures { (result.shape ≡ tables_t.shape) × (result.marks.now ≡ marks.now) × (result.keys.now ≡ keys.now) × (result.ranks.now ≡ ranks.now) }
{
    Tables {
        shape: BOARD_T,
        marks,
        keys,
        ranks,
    }
}
