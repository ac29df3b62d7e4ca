// Whether an edit list reads: the first thing that both tests ask. docs/RULES.md, 3.2, 3.3 and 5.1.

#![tactic(auto)]

ghost use Rattle.std.specs.Prelude.{◌≡◌, List, ℕ, ◌<◌, length};
ghost use Rattle.basics.specs.Edits.{edits};
ghost use Rattle.rules.specs.Roster.{Roster};
ghost use Rattle.assignment_tables.specs.Layout.{Marked};
ghost use Rattle.assignment_tables.specs.Tables.{board};
ghost use Rattle.overlay_reading.specs.Reading.{edit_fits, entry_reads, list_reads};

use assignment_tables::{EMPTY, Shape, Tables, edits, lookup};

// The row is in range and may have the value; where the final test asks, a required row keeps one.
fn edit_fits(last: bool, tables: &Tables<'_>, row: usize, value: usize) -> bool
    requires { Marked tables.now.shape tables.now.marks.now }
    ensures { result ≡ edit_fits last tables.now.shape tables.now.marks.now row value }
{
    if row >= tables.shape.rows {
        return false;
    }
    if !lookup::value_is_legal(tables, row, value) {
        return false;
    }
    if !last {
        return true;
    }
    if value != EMPTY {
        return true;
    }
    !lookup::is_required(tables, row)
}

// The i-th entry of the list reads.
fn entry_reads(
    last: bool,
    tables: &Tables<'_>,
    list_rows: &[usize],
    list_values: &[usize],
    i: usize,
) -> bool
    requires marked { Marked tables.now.shape tables.now.marks.now }
    requires i_in_bounds { (i < length list_rows.now) × (length list_rows.now ≡ length list_values.now) }
    ensures { result ≡ entry_reads last tables.now.shape tables.now.marks.now list_rows.now list_values.now i }
{
    if !edit_fits(last, tables, list_rows[i], list_values[i]) {
        return false;
    }
    edits::first_named(list_rows, i)
}

// The whole list reads, whatever the keys, the ranks and the roster; last asks it as the final test does.
pub fn list_reads(
    last: bool,
    tables: &Tables<'_>,
    list_rows: &[usize],
    list_values: &[usize],
) -> bool
    requires marked { Marked tables.now.shape tables.now.marks.now }
    requires list_rows_len { length list_rows.now ≡ length list_values.now }
    ensures { (k : List ℕ) (h : Roster) → result ≡ list_reads last (board tables.now.shape tables.now.marks.now k) h (edits list_rows.now list_values.now) }
{
    for i in 0..list_rows.len() {
        if !entry_reads(last, tables, list_rows, list_values, i) {
            return false;
        }
    }
    true
}
