// Whether the lent slices are the index that the tables give the roster in them.

#![tactic(auto)]

ghost use Rattle.std.specs.Prelude.{◌≡◌, ◌+◌, ◌<◌, ◌≤◌, length};
ghost use Rattle.basics.specs.Tests.{all_below, same_numbers};
ghost use Rattle.assignment_tables.specs.Layout.{Marked, keys_length};
ghost use Rattle.assignment_index.specs.Columns.{column, records_length, members_length, Named};
ghost use Rattle.assignment_index.specs.Index.{part_of, key_right, row_right, members_of, is_index, of_index};
ghost use Rattle.assignment_tables.specs.Tables.{of_tables};

use assignment_index::columns::Part;
use assignment_index::{Index, columns, rows};
use assignment_tables::{Shape, Tables, lookup};

// The part is the one that the records give.
fn is_part(rows: usize, index: &Index<'_, '_>, part: Part) -> bool
    requires named { Named rows part }
    requires records_len { (length index.now.records.now ≡ records_length rows) × (length index.now.members.now ≡ members_length rows) }
    ensures { result ≡ same_numbers (column (rows + 1) part.column index.now.members.now) (part_of rows part index.now.records.now) }
{
    let size = rows + 1;
    let start = columns::column_start(size, part.column, 3);
    let flags = columns::column_start(rows, part.flags, 5);
    let high_keys = columns::column_start(rows, part.high, 5);
    let low_keys = columns::column_start(rows, part.low, 5);
    membership::is_membership(
        &index.members[start..start + size],
        part.absent,
        &index.records[flags..flags + rows],
        &index.records[high_keys..high_keys + rows],
        &index.records[low_keys..low_keys + rows],
    )
}

// The j-th column of the records and the one behind it have the key for the row.
fn key_recorded(rows: usize, records: &[usize], j: usize, row: usize, key: Option<usize>) -> bool
    requires { (rows ≤ 128) × (length records.now ≡ records_length rows) × (j < 4) × (row < rows) }
    ensures { result ≡ key_right rows records.now j row key }
{
    let numbers = rows::numbers_of(key);
    let given = columns::cell(rows, records, j, row);
    let number = columns::cell(rows, records, j + 1, row);
    (given == numbers.given) & (number == numbers.number)
}

// The records have the keys that the tables give the row at the value that it holds.
fn row_recorded(tables: &Tables<'_>, records: &[usize], row: usize) -> bool
    requires marked { Marked tables.now.shape tables.now.marks.now }
    requires keys_len { (length tables.now.keys.now ≡ keys_length tables.now.shape) × (length records.now ≡ records_length tables.now.shape.rows) × (row < tables.now.shape.rows) }
    ensures { result ≡ of_tables row_right tables.now records.now row }
{
    let rows = tables.shape.rows;
    let value = columns::cell(rows, records, 0, row);
    let capacity = lookup::capacity_key(tables, row, value);
    if !key_recorded(rows, records, 1, row, capacity) {
        return false;
    }
    let sequence = lookup::sequence_key(tables, row, value);
    key_recorded(rows, records, 3, row, sequence)
}

// So it is for every row.
fn all_recorded(tables: &Tables<'_>, records: &[usize]) -> bool
    requires marked { Marked tables.now.shape tables.now.marks.now }
    requires keys_len { (length tables.now.keys.now ≡ keys_length tables.now.shape) × (length records.now ≡ records_length tables.now.shape.rows) }
    ensures { result ≡ all_below tables.now.shape.rows (of_tables row_right tables.now records.now) }
{
    for row in 0..tables.shape.rows {
        if !row_recorded(tables, records, row) {
            return false;
        }
    }
    true
}

// The members are those that the records give.
fn all_parts(rows: usize, index: &Index<'_, '_>) -> bool
    requires rows_bound { rows ≤ 128 }
    requires records_len { (length index.now.records.now ≡ records_length rows) × (length index.now.members.now ≡ members_length rows) }
    ensures { result ≡ same_numbers index.now.members.now (members_of rows index.now.records.now) }
{
    if !is_part(rows, index, rows::by_capacity()) {
        return false;
    }
    if !is_part(rows, index, rows::by_value()) {
        return false;
    }
    is_part(rows, index, rows::by_sequence())
}

// The slices are the index of the roster that they hold.
pub fn is_index(tables: &Tables<'_>, index: &Index<'_, '_>) -> bool
    requires marked { Marked tables.now.shape tables.now.marks.now }
    requires keys_len { (length tables.now.keys.now ≡ keys_length tables.now.shape) × (length index.now.records.now ≡ records_length tables.now.shape.rows) × (length index.now.members.now ≡ members_length tables.now.shape.rows) }
    ensures { result ≡ of_index is_index tables.now index.now }
{
    if !all_recorded(tables, index.records) {
        return false;
    }
    all_parts(tables.shape.rows, index)
}
