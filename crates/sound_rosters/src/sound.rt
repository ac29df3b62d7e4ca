// Whether a whole roster is sound, on slices that were admitted.
ghost use Rattle.std.specs.Prelude.{◌≡◌, ◌||◌, ◌<◌, eqb};
ghost use Rattle.rules.specs.Board.{empty};
ghost use Rattle.rules.specs.Sound.{sound_at, sound_test};
ghost use Rattle.assignment_tables.specs.Layout.{Marked};
ghost use Rattle.assignment_tables.specs.Tables.{legal_at, the_board};
ghost use Rattle.assignment_index.specs.Index.{Indexed, the_roster, IsIndexed};

use assignment_index::{Index, columns};
use assignment_tables::{EMPTY, Shape, Tables, lookup};

// The value, if it is one, is legal for the row. An empty row holds nothing illegal; whether it may
// be empty, which is what legality of "no value" asks, is no matter here.
fn holds_legally(tables: &Tables<'_>, row: usize, value: usize) -> bool
    requires { Marked tables.now.shape tables.now.marks.now }
    ensures { result ≡ eqb value empty || legal_at tables.now.shape tables.now.marks.now row value }
{
    if value == EMPTY {
        return true;
    }
    lookup::value_is_legal(tables, row, value)
}

// The row holds nothing illegal, and what it touches by its own holding passes. A list that sets the
// row to what it holds changes nothing and touches just that.
fn row_sound(tables: &Tables<'_>, index: &Index<'_, '_>, row: usize) -> bool
    requires indexed { IsIndexed tables.now index.now }
    requires row_lt_rows { row < tables.now.shape.rows }
    ensures { result ≡ sound_at (the_board tables.now) (the_roster tables.now index.now) row }
{
    let held = columns::held_value(tables.shape.rows, index.records, row);
    if !holds_legally(tables, row, held) {
        return false;
    }
    let rows = [row];
    let values = [held];
    if !overlay_capacity::capacity_passes(tables, index, &rows, &values) {
        return false;
    }
    overlay_edges::edges_pass(tables, index, &rows, &values)
}

// The roster is sound, whatever the ranks.
pub fn sound_test(tables: &Tables<'_>, index: &Index<'_, '_>) -> bool
    requires { IsIndexed tables.now index.now }
    ensures { result ≡ sound_test (the_board tables.now) (the_roster tables.now index.now) }
{
    let mut row = 0;
    while row < tables.shape.rows {
        if !row_sound(tables, index, row) {
            return false;
        }
        row += 1;
    }
    true
}
