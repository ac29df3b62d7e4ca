// One part of the lent members, with the columns of the records that give it.
ghost use Rattle.std.specs.Prelude.{◌≡◌, ◌+◌, ◌*◌, ◌<◌, ◌≤◌, length, get_or};
ghost use Rattle.assignment_index.specs.Columns.{column, records_length, members_length, Named};
ghost use Rattle.assignment_index.specs.Index.{part_of, start_of, roster_in, part_rows};

use crate::Index;
use assignment_tables::EMPTY;

// Which column of the members a part is, and which columns of the records have its flags, the flag
// that means absent, and the two halves of its key.
#[derive(Clone, Copy)]
pub struct Part {
    pub column: usize,
    pub absent: usize,
    pub flags: usize,
    pub high: usize,
    pub low: usize,
}

// Where the j-th of several columns of n cells starts.
pub fn column_start(n: usize, j: usize, columns: usize) -> usize
    requires { (n ≤ 129) × (columns ≤ 5) × (j < columns) }
    ensures { (result ≡ j * n) × (result + n ≤ columns * n) }
{
    j * n
}

// The value that a row in range holds.
pub fn held_value(rows: usize, records: &[usize], row: usize) -> usize
    requires { (rows ≤ length records.now) × (row < rows) }
    ensures { result ≡ roster_in rows records.now row }
{
    records[row]
}

// The value that any row holds; one out of range holds nothing.
pub fn value_of(rows: usize, records: &[usize], row: usize) -> usize
    requires { rows ≤ length records.now }
    ensures { result ≡ roster_in rows records.now row }
{
    if row < rows {
        return held_value(rows, records, row);
    }
    EMPTY
}

// The row's cell in the j-th column of the records.
pub fn cell(rows: usize, records: &[usize], j: usize, row: usize) -> usize
    requires { (rows ≤ 128) × (length records.now ≡ records_length rows) × (j < 5) × (row < rows) }
    ensures { result ≡ get_or (column rows j records.now) row 0 }
{
    records[column_start(rows, j, 5) + row]
}

// The rows under a key, in row order: a stretch of the part.
pub fn part_members<'a>(
    rows: usize,
    index: &Index<'_, 'a>,
    part: Part,
    key_high: usize,
    key_low: usize,
) -> &'a [usize]
    requires named { Named rows part }
    requires records_len { (length index.now.records.now ≡ records_length rows) × (length index.now.members.now ≡ members_length rows) }
    requires members_value { column (rows + 1) part.column index.now.members.now ≡ part_of rows part index.now.records.now }
    ensures { result.now ≡ part_rows rows part index.now.records.now key_high key_low }
{
    let size = rows + 1;
    let start = column_start(size, part.column, 3);
    let high = column_start(rows, part.high, 5);
    let low = column_start(rows, part.low, 5);
    membership::members_of(
        &index.members[start..start + size],
        &index.records[high..high + rows],
        &index.records[low..low + rows],
        key_high,
        key_low,
    )
}

// How many members of the part stand before the rows under a key.
pub fn part_start(
    rows: usize,
    index: &Index<'_, '_>,
    part: Part,
    key_high: usize,
    key_low: usize,
) -> usize
    requires named { Named rows part }
    requires records_len { (length index.now.records.now ≡ records_length rows) × (length index.now.members.now ≡ members_length rows) }
    requires members_value { column (rows + 1) part.column index.now.members.now ≡ part_of rows part index.now.records.now }
    ensures { result ≡ start_of rows part index.now.records.now index.now.members.now key_high key_low }
{
    let size = rows + 1;
    let start = column_start(size, part.column, 3);
    let high = column_start(rows, part.high, 5);
    let low = column_start(rows, part.low, 5);
    membership::place_of(
        &index.members[start..start + size],
        &index.records[high..high + rows],
        &index.records[low..low + rows],
        key_high,
        key_low,
        0,
    )
}

// The rows under a key from where they start; those under the next key start where they end.
pub fn part_from<'a>(
    rows: usize,
    index: &Index<'_, 'a>,
    part: Part,
    key_high: usize,
    key_low: usize,
    before: usize,
) -> &'a [usize]
    requires named { Named rows part }
    requires records_len { (length index.now.records.now ≡ records_length rows) × (length index.now.members.now ≡ members_length rows) }
    requires members_value { column (rows + 1) part.column index.now.members.now ≡ part_of rows part index.now.records.now }
    requires before_value { before ≡ start_of rows part index.now.records.now index.now.members.now key_high key_low }
    ensures result_value { result.now ≡ part_rows rows part index.now.records.now key_high key_low }
    ensures result_value_2 { (before + length result.now ≡ start_of rows part index.now.records.now index.now.members.now key_high (key_low + 1)) × (before + length result.now ≤ rows) }
{
    let size = rows + 1;
    let start = column_start(size, part.column, 3);
    let high = column_start(rows, part.high, 5);
    let low = column_start(rows, part.low, 5);
    membership::members_from(
        &index.members[start..start + size],
        &index.records[high..high + rows],
        &index.records[low..low + rows],
        key_high,
        key_low,
        before,
    )
}
