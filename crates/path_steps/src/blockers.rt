// What is found among some rows that may block a row: one pass over them for both questions.
ghost use Rattle.std.specs.Prelude.{◌≡◌, not, ◌||◌, min, eqb};
ghost use Rattle.assignment_tables.specs.Layout.{Marked};
ghost use Rattle.assignment_tables.specs.Tables.{required_at};
ghost use Rattle.path_blockers.specs.Seeking.{nearer};
ghost use Rattle.path_steps.specs.Judging.{required_other, Blocking};

use assignment_tables::{Shape, Tables, lookup};

// The first required one, the number of rows where there is none, and whether there is an optional
// one.
#[derive(Clone, Copy)]
pub struct Blockers {
    pub required: usize,
    pub optional: bool,
}

fn lesser(a: usize, b: usize) -> usize
    ensures { result ≡ min a b }
{
    if a < b {
        return a;
    }
    b
}

// What was found, and another row.
fn with_other(tables: &Tables<'_>, row: usize, other: usize, found: Blockers) -> Blockers
    requires { Marked tables.now.shape tables.now.marks.now }
    ensures required_value { result.required ≡ nearer (required_other tables.now.shape tables.now.marks.now row) 0 other found.required }
    ensures optional_value { result.optional ≡ found.optional || not (required_at tables.now.shape tables.now.marks.now other || eqb other row) }
{
    if other == row {
        return found;
    }
    if lookup::is_required(tables, other) {
        return Blockers {
            required: lesser(other, found.required),
            optional: found.optional,
        };
    }
    Blockers {
        required: found.required,
        optional: true,
    }
}

// What is found among the others; the row does not block itself.
pub fn found_among(tables: &Tables<'_>, row: usize, others: &[usize]) -> Blockers
    requires { Marked tables.now.shape tables.now.marks.now }
    ensures { Blocking tables.now.shape tables.now.marks.now row others.now result }
{
    let mut found = Blockers {
        required: tables.shape.rows,
        optional: false,
    };
    for &other in others {
        found = with_other(tables, row, other, found);
    }
    found
}

// What is found among the rows of both.
pub fn both(a: Blockers, b: Blockers) -> Blockers
    ensures { (result.required ≡ min a.required b.required) × (result.optional ≡ a.optional || b.optional) }
{
    Blockers {
        required: lesser(a.required, b.required),
        optional: a.optional | b.optional,
    }
}
