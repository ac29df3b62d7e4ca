// The first blocker of a row and a value, from the rows that the index has around them (module
// `rows`): who asks more than once looks them up once.
ghost use Rattle.std.specs.Prelude.{◌≡◌, min};
ghost use Rattle.assignment_tables.specs.Layout.{Marked};
ghost use Rattle.assignment_tables.specs.Tables.{required_at};
ghost use Rattle.path_blockers.specs.Seeking.{Least, unlisted, is_sought, sides_allow, side_listed, blocks_listed};

use crate::least;
use assignment_tables::{Shape, Tables, lookup};

fn lesser(a: usize, b: usize) -> usize
    ensures { result ≡ min a b }
{
    if a < b {
        return a;
    }
    b
}

// The pairs that the row would form with the rows that the list does not name are allowed.
fn sides_allow(
    tables: &Tables<'_>,
    list_rows: &[usize],
    row: usize,
    below: &[usize],
    above: &[usize],
) -> bool
    requires { Marked tables.now.shape tables.now.marks.now }
    ensures { result ≡ sides_allow tables.now.shape tables.now.marks.now (unlisted list_rows.now) row below.now above.now }
{
    if !least::all_allow(tables, list_rows, false, row, below) {
        return false;
    }
    least::all_allow(tables, list_rows, true, row, above)
}

// The first row looked for at either side, from a row on.
fn first_beside(
    tables: &Tables<'_>,
    list_rows: &[usize],
    optional: bool,
    row: usize,
    from: usize,
    below: &[usize],
    above: &[usize],
) -> usize
    requires { Marked tables.now.shape tables.now.marks.now }
    ensures { Least (side_listed (is_sought (required_at tables.now.shape tables.now.marks.now) list_rows.now optional) row below.now above.now) from tables.now.shape.rows result }
{
    let low = least::first_in(tables, list_rows, optional, row, from, below);
    let high = least::first_in(tables, list_rows, optional, row, from, above);
    lesser(low, high)
}

// The first blocker that the list does not name, from a row on, or of these the first optional one;
// the number of rows where there is none. All rows that the list does not name decide whether the
// edge rule refuses the row.
pub fn first_blocker(
    tables: &Tables<'_>,
    list_rows: &[usize],
    optional: bool,
    row: usize,
    from: usize,
    holders: &[usize],
    below: &[usize],
    above: &[usize],
) -> usize
    requires { Marked tables.now.shape tables.now.marks.now }
    ensures { Least (blocks_listed tables.now.shape tables.now.marks.now (unlisted list_rows.now)
        (is_sought (required_at tables.now.shape tables.now.marks.now) list_rows.now optional) row holders.now below.now above.now) from tables.now.shape.rows result }
{
    let holder = least::first_in(tables, list_rows, optional, row, from, holders);
    if !lookup::has_assignment_rule(tables.shape) {
        return holder;
    }
    if sides_allow(tables, list_rows, row, below, above) {
        return holder;
    }
    let neighbour = first_beside(tables, list_rows, optional, row, from, below, above);
    lesser(holder, neighbour)
}
