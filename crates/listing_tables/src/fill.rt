// One table at a time, filled from a column of the records.
ghost use Rattle.std.specs.Prelude.{◌≡◌, ◌≤◌, ◌<◌, ◌+◌, ◌*◌, length};
ghost use Rattle.listing_shape.specs.Counts.{cell_in};
ghost use Rattle.listing_tables.specs.Filled.{scattered, place_in, flag_in, Fitting};

// 1 for every record in column 0, and else 1 where the column is not 0.
fn flag_in(cells: &[usize], column: usize, i: usize) -> u8
    requires { (i < 7300) × (column < 7) × (51100 ≤ length cells.now) }
    ensures { result ≡ flag_in cells.now column i }
{
    if column == 0 {
        return 1;
    }
    if cells[i * 7 + column] == 0 {
        return 0;
    }
    1
}

// The place of a record's row and value, in a table of so many values that starts at a place.
fn place_in(cells: &[usize], rows: usize, values: usize, start: usize, i: usize) -> usize
    requires fitting { Fitting cells.now (i + 1) rows values }
    requires i_bound { (i < 7300) × (start ≤ 65536) }
    ensures { result ≡ place_in cells.now values start i }
{
    start + (cells[i * 7] * values + cells[i * 7 + 1])
}

// Writes a flag for each record at the place of its row and value.
pub fn fill_flags(
    cells: &[usize],
    count: usize,
    column: usize,
    start: usize,
    rows: usize,
    values: usize,
    flags: &mut [u8],
)
    requires fitting { Fitting cells.now count rows values }
    requires count_bound { (count ≤ 7300) × (column < 7) × (start ≤ 65536) × (start + rows * values ≤ length flags.old) }
    ensures { flags.new ≡ scattered (place_in cells.now values start) (flag_in cells.now column) count flags.old }
{
    for i in 0..count {
        let place = place_in(cells, rows, values, start, i);
        flags[place] = flag_in(cells, column, i);
    }
}

// Writes each record's number in a column at the place of its row and value.
pub fn fill_numbers(
    cells: &[usize],
    count: usize,
    column: usize,
    start: usize,
    rows: usize,
    values: usize,
    numbers: &mut [usize],
)
    requires fitting { Fitting cells.now count rows values }
    requires count_bound { (count ≤ 7300) × (column < 7) × (start ≤ 65536) × (start + rows * values ≤ length numbers.old) }
    ensures { numbers.new ≡ scattered (place_in cells.now values start) (cell_in cells.now column) count numbers.old }
{
    for i in 0..count {
        let place = place_in(cells, rows, values, start, i);
        numbers[place] = cells[i * 7 + column];
    }
}
