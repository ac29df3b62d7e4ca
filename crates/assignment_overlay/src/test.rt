// The two tests on slices that were admitted.
ghost use Rattle.std.specs.Prelude.{◌≡◌, length};
ghost use Rattle.basics.specs.Edits.{edits};
ghost use Rattle.rules.specs.FinalTest.{passes};
ghost use Rattle.rules.specs.Reinsertion.{reinserts};
ghost use Rattle.assignment_tables.specs.Tables.{the_board};
ghost use Rattle.assignment_index.specs.Index.{Indexed, the_roster, IsIndexed};

use assignment_index::Index;
use assignment_tables::{Shape, Tables, lookup};

// The list passes the final test, whatever the ranks.
pub fn final_test(
    tables: &Tables<'_>,
    index: &Index<'_, '_>,
    list_rows: &[usize],
    list_values: &[usize],
) -> bool
    requires indexed { IsIndexed tables.now index.now }
    requires list_rows_len { length list_rows.now ≡ length list_values.now }
    ensures { result ≡ passes (the_board tables.now) (the_roster tables.now index.now) (edits list_rows.now list_values.now) }
{
    if !overlay_reading::list_reads(true, tables, list_rows, list_values) {
        return false;
    }
    if !overlay_capacity::capacity_passes(tables, index, list_rows, list_values) {
        return false;
    }
    overlay_edges::edges_pass(tables, index, list_rows, list_values)
}

// The row may take the value after the list. A required row may be empty in the list: a repair goes
// through such lists, and only the final test of the whole forbids it.
pub fn reinsert_test(
    tables: &Tables<'_>,
    index: &Index<'_, '_>,
    list_rows: &[usize],
    list_values: &[usize],
    row: usize,
    value: usize,
) -> bool
    requires indexed { IsIndexed tables.now index.now }
    requires list_rows_len { length list_rows.now ≡ length list_values.now }
    ensures { result ≡ reinserts (the_board tables.now) (the_roster tables.now index.now) (edits list_rows.now list_values.now) row value }
{
    if !overlay_reading::list_reads(false, tables, list_rows, list_values) {
        return false;
    }
    let key = lookup::capacity_key(tables, row, value);
    if !overlay_capacity::key_passes(tables, index, list_rows, list_values, key) {
        return false;
    }
    overlay_edges::beside_passes(tables, index, list_rows, list_values, row, value)
}
