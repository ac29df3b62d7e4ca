// The driver's duties among the rows of an index, in the fronts of two slices.
ghost use Rattle.std.specs.Prelude.{◌≤◌, ◌<◌, ◌+◌, ◌≡◌, length};
ghost use Rattle.assignment_index.specs.Columns.{records_length};
ghost use Rattle.calendar_format.specs.Slices.{InFronts};
ghost use Rattle.driver_calendar.specs.Recorded.{recorded_duties, Added};

use assignment_index::columns;

// A row that the driver holds, and that has a sequence, is a duty more.
fn add_row(
    rows: usize,
    records: &[usize],
    driver: usize,
    row: usize,
    count: usize,
    out_rows: &mut [usize],
    out_days: &mut [usize],
) -> usize
    requires rows_bound { (rows ≤ 128) × (length records.now ≡ records_length rows) × (row < rows) }
    requires count_in_bounds { (count < length out_rows.old) × (count < length out_days.old) }
    ensures { Added rows records.now driver row out_rows.old out_days.old count out_rows.new out_days.new result }
{
    if columns::held_value(rows, records, row) != driver {
        return count;
    }
    if columns::cell(rows, records, 3, row) == 0 {
        return count;
    }
    out_rows[count] = row;
    out_days[count] = columns::cell(rows, records, 4, row);
    count + 1
}

// All of them, and how many there are.
pub fn gather(
    rows: usize,
    records: &[usize],
    driver: usize,
    out_rows: &mut [usize],
    out_days: &mut [usize],
) -> usize
    requires rows_bound { (rows ≤ 128) × (length records.now ≡ records_length rows) }
    requires rows_in_bounds { (rows ≤ length out_rows.old) × (rows ≤ length out_days.old) }
    ensures { InFronts (recorded_duties rows records.now driver rows) out_rows.new out_days.new result }
{
    let mut count = 0;
    for row in 0..rows {
        count = add_row(rows, records, driver, row, count, out_rows, out_days);
    }
    count
}
