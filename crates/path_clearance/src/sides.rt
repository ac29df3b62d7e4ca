// Whether a row at a side of a place refuses a row there.
ghost use Rattle.std.specs.Prelude.{◌≡◌, not, cond, ◌||◌, ℕ};
ghost use Rattle.basics.specs.Tests.{all};
ghost use Rattle.assignment_tables.specs.Layout.{Marked};
ghost use Rattle.assignment_tables.specs.Tables.{edge_at, required_at};
ghost use Rattle.path_blockers.specs.Seeking.{sides_allow};
ghost use Rattle.path_clearance.specs.Clearance.{stays};

use assignment_tables::{Shape, Tables, lookup};

// The other row is there on the way down: with displacement only the required rows are.
fn is_there(tables: &Tables<'_>, displace: bool, other: usize) -> bool
    requires { Marked tables.now.shape tables.now.marks.now }
    ensures { result ≡ stays (required_at tables.now.shape tables.now.marks.now) displace other }
{
    if displace {
        return lookup::is_required(tables, other);
    }
    true
}

// It is, and the pair with it, on the right or on the left, is not allowed.
fn refused(tables: &Tables<'_>, displace: bool, right: bool, row: usize, other: usize) -> bool
    requires { Marked tables.now.shape tables.now.marks.now }
    ensures { result ≡ not (not (stays (required_at tables.now.shape tables.now.marks.now) displace other) || cond right (edge_at tables.now.shape tables.now.marks.now row other) (edge_at tables.now.shape tables.now.marks.now other row)) }
{
    if !is_there(tables, displace, other) {
        return false;
    }
    if right {
        return !lookup::assignment_edge_allowed(tables, row, other);
    }
    !lookup::assignment_edge_allowed(tables, other, row)
}

// The same of some of the others.
fn refuses(tables: &Tables<'_>, displace: bool, right: bool, row: usize, others: &[usize]) -> bool
    requires { Marked tables.now.shape tables.now.marks.now }
    ensures { result ≡ not (all (λ (o : ℕ). not (stays (required_at tables.now.shape tables.now.marks.now) displace o) || cond right (edge_at tables.now.shape tables.now.marks.now row o) (edge_at tables.now.shape tables.now.marks.now o row)) others.now) }
{
    for &other in others {
        if refused(tables, displace, right, row, other) {
            return true;
        }
    }
    false
}

// The edge rule refuses a pair that the row would form with a row at a side.
pub fn sides_refuse(
    tables: &Tables<'_>,
    displace: bool,
    row: usize,
    below: &[usize],
    above: &[usize],
) -> bool
    requires { Marked tables.now.shape tables.now.marks.now }
    ensures { result ≡ not (sides_allow tables.now.shape tables.now.marks.now (stays (required_at tables.now.shape tables.now.marks.now) displace) row below.now above.now) }
{
    if refuses(tables, displace, false, row, below) {
        return true;
    }
    refuses(tables, displace, true, row, above)
}
