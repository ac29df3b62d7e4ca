// The least of some rows that is looked for, and whether the pairs with some rows are allowed.
ghost use Rattle.std.specs.Prelude.{◌≡◌, not, cond, ◌&&◌, ◌||◌, ℕ, eqb};
ghost use Rattle.basics.specs.Tests.{all, among};
ghost use Rattle.assignment_tables.specs.Layout.{Marked};
ghost use Rattle.assignment_tables.specs.Tables.{edge_at, required_at};
ghost use Rattle.path_blockers.specs.Seeking.{Least, nearer, unlisted, is_sought};

use assignment_tables::{Shape, Tables, lookup};
use overlay_pairs::pairs;

fn is_unlisted(list_rows: &[usize], other: usize) -> bool
    ensures { result ≡ unlisted list_rows.now other }
{
    !pairs::is_listed(list_rows, other)
}

// The list does not name the other row, which is optional where only such rows are looked for.
fn is_sought(tables: &Tables<'_>, list_rows: &[usize], optional: bool, other: usize) -> bool
    requires { Marked tables.now.shape tables.now.marks.now }
    ensures { result ≡ is_sought (required_at tables.now.shape tables.now.marks.now) list_rows.now optional other }
{
    if !optional {
        return is_unlisted(list_rows, other);
    }
    if lookup::is_required(tables, other) {
        return false;
    }
    is_unlisted(list_rows, other)
}

// The other row, if it is looked for and serves better than the best so far.
fn better(
    tables: &Tables<'_>,
    list_rows: &[usize],
    optional: bool,
    row: usize,
    from: usize,
    other: usize,
    best: usize,
) -> usize
    requires { Marked tables.now.shape tables.now.marks.now }
    ensures { result ≡ nearer (λ (o : ℕ). is_sought (required_at tables.now.shape tables.now.marks.now) list_rows.now optional o && not (eqb o row)) from other best }
{
    if other < from {
        return best;
    }
    if best <= other {
        return best;
    }
    if other == row {
        return best;
    }
    if is_sought(tables, list_rows, optional, other) {
        return other;
    }
    best
}

// The least of the others, from a row on, that is looked for and is not the row itself; the number
// of rows where there is none.
pub fn first_in(
    tables: &Tables<'_>,
    list_rows: &[usize],
    optional: bool,
    row: usize,
    from: usize,
    others: &[usize],
) -> usize
    requires { Marked tables.now.shape tables.now.marks.now }
    ensures { Least (λ (o : ℕ). among o others.now && (is_sought (required_at tables.now.shape tables.now.marks.now) list_rows.now optional o && not (eqb o row))) from tables.now.shape.rows result }
{
    let mut best = tables.shape.rows;
    for &other in others {
        best = better(tables, list_rows, optional, row, from, other, best);
    }
    best
}

// The list names the other row, or the pair with it, on the right or on the left, is allowed.
fn allows(tables: &Tables<'_>, list_rows: &[usize], right: bool, row: usize, other: usize) -> bool
    requires { Marked tables.now.shape tables.now.marks.now }
    ensures { result ≡ not (unlisted list_rows.now other) || cond right (edge_at tables.now.shape tables.now.marks.now row other) (edge_at tables.now.shape tables.now.marks.now other row) }
{
    if !is_unlisted(list_rows, other) {
        return true;
    }
    if right {
        return lookup::assignment_edge_allowed(tables, row, other);
    }
    lookup::assignment_edge_allowed(tables, other, row)
}

// The same of each of the others.
pub fn all_allow(
    tables: &Tables<'_>,
    list_rows: &[usize],
    right: bool,
    row: usize,
    others: &[usize],
) -> bool
    requires { Marked tables.now.shape tables.now.marks.now }
    ensures { result ≡ all (λ (o : ℕ). not (unlisted list_rows.now o) || cond right (edge_at tables.now.shape tables.now.marks.now row o) (edge_at tables.now.shape tables.now.marks.now o row)) others.now }
{
    for &other in others {
        if !allows(tables, list_rows, right, row, other) {
            return false;
        }
    }
    true
}
