// One row of the lent index: written, taken out, put in.

#![tactic(auto)]

ghost use Rattle.std.specs.Prelude.{◌≡◌, ◌+◌, ◌*◌, ◌<◌, ◌≤◌, length, set};
ghost use Rattle.rules.specs.Board.{empty};
ghost use Rattle.rules.specs.Roster.{put};
ghost use Rattle.assignment_tables.specs.Layout.{Marked, keys_length};
ghost use Rattle.assignment_tables.specs.Tables.{capacity_at, sequence_at, of_tables};
ghost use Rattle.assignment_index.specs.Columns.{column, records_length, members_length, Named, Placed};
ghost use Rattle.assignment_index.specs.Index.{part_of, part_without, records_of, members_of, roster_in, Indexed, written};

use assignment_index::columns;
use assignment_index::columns::Part;
use assignment_index::rows::{by_capacity, by_sequence, by_value, numbers_of};
use assignment_tables::{EMPTY, Shape, Tables, lookup};

// Takes the row out of the part.
fn leave(rows: usize, records: &[usize], members: &mut [usize], part: Part, row: usize)
    requires named { Named rows part }
    requires records_len { (length records.now ≡ records_length rows) × (length members.old ≡ members_length rows) × (row < rows) }
    requires members_value { column (rows + 1) part.column members.old ≡ part_of rows part records.now }
    ensures { Placed (rows + 1) part.column members.old members.new (part_without rows part records.now row) }
{
    let size = rows + 1;
    let start = columns::column_start(size, part.column, 3);
    let high = columns::column_start(rows, part.high, 5);
    let low = columns::column_start(rows, part.low, 5);
    membership::remove_member(
        &mut members[start..start + size],
        &records[high..high + rows],
        &records[low..low + rows],
        row,
    );
}

// Puts the row into the part, if the records have a key for it there.
fn join(rows: usize, records: &[usize], members: &mut [usize], part: Part, row: usize)
    requires named { Named rows part }
    requires records_len { (length records.now ≡ records_length rows) × (length members.old ≡ members_length rows) × (row < rows) }
    requires members_value { column (rows + 1) part.column members.old ≡ part_without rows part records.now row }
    ensures { Placed (rows + 1) part.column members.old members.new (part_of rows part records.now) }
{
    let size = rows + 1;
    let start = columns::column_start(size, part.column, 3);
    let high = columns::column_start(rows, part.high, 5);
    let low = columns::column_start(rows, part.low, 5);
    let flag = records[columns::column_start(rows, part.flags, 5) + row];
    membership::put_row(
        &mut members[start..start + size],
        &records[high..high + rows],
        &records[low..low + rows],
        part.absent,
        flag,
        row,
    );
}

fn put_cell(rows: usize, records: &mut [usize], j: usize, row: usize, number: usize)
    requires { (rows ≤ 128) × (length records.old ≡ records_length rows) × (j < 5) × (row < rows) }
    ensures { records.new ≡ set records.old (j * rows + row) number }
{
    let start = columns::column_start(rows, j, 5);
    records[start + row] = number;
}

// Writes the row's value, and the keys that the tables give it there, into the records.
fn write_row(tables: &Tables<'_>, records: &mut [usize], row: usize, value: usize)
    requires marked { Marked tables.now.shape tables.now.marks.now }
    requires keys_len { (length tables.now.keys.now ≡ keys_length tables.now.shape) × (length records.old ≡ records_length tables.now.shape.rows) × (row < tables.now.shape.rows) }
    ensures { records.new ≡ written tables.now.shape.rows row value (of_tables capacity_at tables.now row value) (of_tables sequence_at tables.now row value) records.old }
{
    let rows = tables.shape.rows;
    let capacity = numbers_of(lookup::capacity_key(tables, row, value));
    let sequence = numbers_of(lookup::sequence_key(tables, row, value));
    put_cell(rows, records, 0, row, value);
    put_cell(rows, records, 1, row, capacity.given);
    put_cell(rows, records, 2, row, capacity.number);
    put_cell(rows, records, 3, row, sequence.given);
    put_cell(rows, records, 4, row, sequence.number);
}

// Takes the row out of the index: it holds nothing.
pub fn take_out(tables: &Tables<'_>, records: &mut [usize], members: &mut [usize], row: usize)
    requires indexed { of_tables Indexed tables.now records.old members.old }
    requires row_lt_rows { row < tables.now.shape.rows }
    ensures records_value { records.new ≡ records_of tables.now.shape.rows (of_tables capacity_at tables.now) (of_tables sequence_at tables.now) (put (roster_in tables.now.shape.rows records.old) row empty) }
    ensures members_value { members.new ≡ members_of tables.now.shape.rows records.new }
{
    let rows = tables.shape.rows;
    leave(rows, records, members, by_capacity(), row);
    leave(rows, records, members, by_value(), row);
    leave(rows, records, members, by_sequence(), row);
    write_row(tables, records, row, EMPTY);
}

// Puts the row, which holds nothing, into the index with the value.
pub fn put_in(
    tables: &Tables<'_>,
    records: &mut [usize],
    members: &mut [usize],
    row: usize,
    value: usize,
)
    requires indexed { of_tables Indexed tables.now records.old members.old }
    requires row_lt_rows { (row < tables.now.shape.rows) × (roster_in tables.now.shape.rows records.old row ≡ empty) }
    ensures records_value { records.new ≡ records_of tables.now.shape.rows (of_tables capacity_at tables.now) (of_tables sequence_at tables.now) (put (roster_in tables.now.shape.rows records.old) row value) }
    ensures members_value { members.new ≡ members_of tables.now.shape.rows records.new }
{
    let rows = tables.shape.rows;
    write_row(tables, records, row, value);
    join(rows, records, members, by_capacity(), row);
    join(rows, records, members, by_value(), row);
    join(rows, records, members, by_sequence(), row);
}
