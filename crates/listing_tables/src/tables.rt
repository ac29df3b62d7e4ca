// The two slices of tables, each cleared and filled.
ghost use Rattle.std.specs.Prelude.{◌≡◌, ◌≤◌, length};
ghost use Rattle.assignment_tables.specs.Layout.{Small, marks_length, keys_length};
ghost use Rattle.listing_tables.specs.Filled.{Fitting, file_marks, file_keys};

use crate::fill::{fill_flags, fill_numbers};
use assignment_tables::{Shape, layout};

// Every record's row and value is legal, and says which keys it has.
pub fn fill_marks(shape: Shape, cells: &[usize], count: usize, marks: &mut [u8])
    requires small { Small shape }
    requires fitting { Fitting cells.now count shape.rows shape.values }
    requires count_bound { (count ≤ 7300) × (length marks.old ≡ marks_length shape) }
    ensures { marks.new ≡ file_marks shape cells.now count }
{
    let legal = layout::legal_start(shape);
    let capacity = layout::capacity_given_start(shape);
    let sequence = layout::sequence_given_start(shape);
    marks.fill(0);
    fill_flags(cells, count, 0, legal, shape.rows, shape.values, marks);
    fill_flags(cells, count, 3, capacity, shape.rows, shape.values, marks);
    fill_flags(cells, count, 5, sequence, shape.rows, shape.values, marks);
}

pub fn fill_keys(shape: Shape, cells: &[usize], count: usize, keys: &mut [usize])
    requires small { Small shape }
    requires fitting { Fitting cells.now count shape.rows shape.values }
    requires count_bound { (count ≤ 7300) × (length keys.old ≡ keys_length shape) }
    ensures { keys.new ≡ file_keys shape cells.now count }
{
    let sequence = layout::sequence_start(shape);
    keys.fill(0);
    fill_numbers(cells, count, 4, 0, shape.rows, shape.values, keys);
    fill_numbers(cells, count, 6, sequence, shape.rows, shape.values, keys);
}
