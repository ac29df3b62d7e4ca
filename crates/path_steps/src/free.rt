// Whether nobody blocks a row from a value after the search's list, in which a row may stand twice:
// its last edit counts.
ghost use Rattle.std.specs.Prelude.{◌≡◌, length};
ghost use Rattle.basics.specs.Edits.{edits};
ghost use Rattle.rules.specs.Roster.{after};
ghost use Rattle.assignment_tables.specs.Tables.{the_board};
ghost use Rattle.assignment_index.specs.Index.{Indexed, the_roster, IsIndexed};
ghost use Rattle.search_rules.specs.Blockers.{is_free};

use assignment_index::Index;
use assignment_tables::{Shape, Tables};
use path_blockers::{blocker, rows};
use path_clearance::arrivals;

// Nobody blocks the row from the value after the list, whatever the ranks.
pub fn free_after(
    tables: &Tables<'_>,
    index: &Index<'_, '_>,
    list_rows: &[usize],
    list_values: &[usize],
    row: usize,
    value: usize,
) -> bool
    requires indexed { IsIndexed tables.now index.now }
    requires list_rows_len { length list_rows.now ≡ length list_values.now }
    ensures { result ≡ is_free (the_board tables.now) (after (the_roster tables.now index.now) (edits list_rows.now list_values.now)) row value }
{
    let holders = rows::holders_of(tables, index, row, value);
    let below = rows::rows_below(tables, index, row, value);
    let above = rows::rows_above(tables, index, row, value);
    let stayer = blocker::first_blocker(tables, list_rows, false, row, 0, holders, below, above);
    if stayer < tables.shape.rows {
        return false;
    }
    arrivals::arrivals_clear(tables, list_rows, list_values, row, value)
}
