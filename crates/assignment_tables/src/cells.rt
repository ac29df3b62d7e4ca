// One cell of a table that stands among others in a slice.
ghost use Rattle.std.specs.Prelude.{◌≡◌, ◌+◌, ◌*◌, ◌≤◌, ◌<◌, length};
ghost use Rattle.assignment_tables.specs.Cells.{Grid, row_flag, cell_flag, cell_key, row_rank};

// The flag of a row, in the table that starts at from.
pub fn row_flag(rows: usize, marks: &[u8], from: usize, row: usize) -> bool
    requires { from + rows ≤ length marks.now }
    ensures { result ≡ row_flag rows from marks.now row }
{
    if row < rows {
        return marks[from + row] != 0;
    }
    false
}

// Where the cell of a row and a column stands, in the table that starts at from.
pub fn cell(rows: usize, columns: usize, from: usize, row: usize, column: usize) -> usize
    requires { (rows ≤ 128) × (columns ≤ 128) × (from ≤ 65536) × (row < rows) × (column < columns) }
    ensures { (result ≡ from + (row * columns + column)) × (result < from + rows * columns) }
{
    from + (row * columns + column)
}

// The flag of a row and a column, in the table that starts at from.
pub fn cell_flag(
    rows: usize,
    columns: usize,
    marks: &[u8],
    from: usize,
    row: usize,
    column: usize,
) -> bool
    requires { Grid rows columns from (length marks.now) }
    ensures { result ≡ cell_flag rows columns from marks.now row column }
{
    if row < rows {
        if column < columns {
            let i = cell(rows, columns, from, row, column);
            return marks[i] != 0;
        }
        return false;
    }
    false
}

// The key of a row and a column: its flag in the table of marks that starts at from, the key in the
// table of keys that starts at start.
pub fn cell_key(
    rows: usize,
    columns: usize,
    marks: &[u8],
    from: usize,
    keys: &[usize],
    start: usize,
    row: usize,
    column: usize,
) -> Option<usize>
    requires grid { Grid rows columns from (length marks.now) }
    requires grid_2 { Grid rows columns start (length keys.now) }
    ensures { result ≡ cell_key rows columns from start marks.now keys.now row column }
{
    if cell_flag(rows, columns, marks, from, row, column) {
        let i = cell(rows, columns, start, row, column);
        return Some(keys[i]);
    }
    None
}

// The rank of a row, likewise.
pub fn row_rank(
    rows: usize,
    marks: &[u8],
    from: usize,
    ranks: &[i64],
    start: usize,
    row: usize,
) -> Option<i64>
    requires { (from + rows ≤ length marks.now) × (start + rows ≤ length ranks.now) }
    ensures { result ≡ row_rank rows from start marks.now ranks.now row }
{
    if row_flag(rows, marks, from, row) {
        return Some(ranks[start + row]);
    }
    None
}
