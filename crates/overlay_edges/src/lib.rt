// Whether the pairs around each touched place are allowed after a list, and those around a named row.
// docs/RULES.md, 3.5 to 3.8 and 5.3.

#![tactic(auto)]

mod around;

ghost use Rattle.std.specs.Prelude.{◌≡◌, true, not, ◌||◌, ◌≤◌, ◌<◌, length};
ghost use Rattle.basics.specs.Tests.{all_below};
ghost use Rattle.basics.specs.Edits.{edits, Listed, all_rows};
ghost use Rattle.rules.specs.Roster.{after};
ghost use Rattle.rules.specs.FinalTest.{edges_pass};
ghost use Rattle.rules.specs.Reinsertion.{beside_passes};
ghost use Rattle.assignment_tables.specs.Layout.{Marked, keys_length};
ghost use Rattle.assignment_tables.specs.Tables.{board, sequence_at, the_board, of_tables};
ghost use Rattle.assignment_index.specs.Index.{roster_in, Indexed, the_roster, IsIndexed};
ghost use Rattle.overlay_pairs.specs.Pairs.{after_list, roster_after, Recalled};
ghost use Rattle.overlay_edges.specs.Edges.{old_place, new_place, edit_places, stays_off, left_place};

use assignment_index::{Index, columns};
use assignment_tables::{Shape, Tables, lookup};
use overlay_pairs::pairs;

// So few edits meet few pairs twice: to look these up again costs less than to clear a memory.
const FEW: usize = 8;

// The place that the i-th edit's row leaves passes.
fn old_passes(
    judged: &mut [u64],
    tables: &Tables<'_>,
    index: &Index<'_, '_>,
    list_rows: &[usize],
    list_values: &[usize],
    i: usize,
) -> bool
    requires indexed { IsIndexed tables.now index.now }
    requires listed { Listed tables.now.shape.rows list_rows.now list_values.now }
    requires i_in_bounds { i < length list_rows.now }
    requires recalled { Recalled tables.now.shape tables.now.marks.now judged.old }
    ensures { (result ≡ old_place (the_board tables.now) (the_roster tables.now index.now) (roster_after tables.now index.now list_rows list_values) list_rows.now i)
        × Recalled tables.now.shape tables.now.marks.now judged.new }
{
    let row = list_rows[i];
    let held = columns::held_value(tables.shape.rows, index.records, row);
    around::place_passes(judged, tables, index, list_rows, list_values, row, held)
}

// Every place that a row leaves passes.
fn old_places_pass(
    judged: &mut [u64],
    tables: &Tables<'_>,
    index: &Index<'_, '_>,
    list_rows: &[usize],
    list_values: &[usize],
) -> bool
    requires indexed { IsIndexed tables.now index.now }
    requires listed { Listed tables.now.shape.rows list_rows.now list_values.now }
    requires recalled { Recalled tables.now.shape tables.now.marks.now judged.old }
    ensures { (result ≡ all_below (length list_rows.now) (old_place (the_board tables.now) (the_roster tables.now index.now) (roster_after tables.now index.now list_rows list_values) list_rows.now))
        × Recalled tables.now.shape tables.now.marks.now judged.new }
{
    for i in 0..list_rows.len() {
        if !old_passes(judged, tables, index, list_rows, list_values, i) {
            return false;
        }
    }
    true
}

// A listed row leaves the place.
fn any_leaves(
    tables: &Tables<'_>,
    records: &[usize],
    list_rows: &[usize],
    value: usize,
    sequence: usize,
) -> bool
    requires marked { Marked tables.now.shape tables.now.marks.now }
    requires keys_len { (length tables.now.keys.now ≡ keys_length tables.now.shape) × (tables.now.shape.rows ≤ length records.now) }
    requires list_rows_value { all_rows tables.now.shape.rows list_rows.now ≡ true }
    ensures { result ≡ not (all_below (length list_rows.now)
        (stays_off (of_tables sequence_at tables.now) (roster_in tables.now.shape.rows records.now) list_rows.now value sequence)) }
{
    for &row in list_rows {
        let held = columns::held_value(tables.shape.rows, records, row);
        if pairs::has_place(tables, row, held, value, sequence) {
            return true;
        }
    }
    false
}

// A listed row leaves the place that the row has at the value, if it has one there.
fn is_left(
    tables: &Tables<'_>,
    records: &[usize],
    list_rows: &[usize],
    row: usize,
    value: usize,
) -> bool
    requires marked { Marked tables.now.shape tables.now.marks.now }
    requires keys_len { (length tables.now.keys.now ≡ keys_length tables.now.shape) × (tables.now.shape.rows ≤ length records.now) }
    requires list_rows_value { all_rows tables.now.shape.rows list_rows.now ≡ true }
    ensures { result ≡ left_place (of_tables sequence_at tables.now) (roster_in tables.now.shape.rows records.now) list_rows.now value
        (of_tables sequence_at tables.now row value) }
{
    let Some(sequence) = lookup::sequence_key(tables, row, value) else {
        return false;
    };
    any_leaves(tables, records, list_rows, value, sequence)
}

// The place that the i-th edit's row arrives at passes. One that a listed row leaves was judged.
fn new_passes(
    judged: &mut [u64],
    tables: &Tables<'_>,
    index: &Index<'_, '_>,
    list_rows: &[usize],
    list_values: &[usize],
    i: usize,
) -> bool
    requires indexed { IsIndexed tables.now index.now }
    requires listed { Listed tables.now.shape.rows list_rows.now list_values.now }
    requires list_rows_value { all_below (length list_rows.now)
        (old_place (of_tables board tables.now) (roster_in tables.now.shape.rows index.now.records.now) (after_list tables.now.shape index.now.records.now list_rows.now list_values.now) list_rows.now) ≡ true }
    requires i_in_bounds { i < length list_rows.now }
    requires recalled { Recalled tables.now.shape tables.now.marks.now judged.old }
    ensures { (result ≡ new_place (the_board tables.now) (roster_after tables.now index.now list_rows list_values) list_rows.now list_values.now i)
        × Recalled tables.now.shape tables.now.marks.now judged.new }
{
    let row = list_rows[i];
    let value = list_values[i];
    if is_left(tables, index.records, list_rows, row, value) {
        return true;
    }
    around::place_passes(judged, tables, index, list_rows, list_values, row, value)
}

// Every place that a row arrives at passes, where those that rows leave do.
fn new_places_pass(
    judged: &mut [u64],
    tables: &Tables<'_>,
    index: &Index<'_, '_>,
    list_rows: &[usize],
    list_values: &[usize],
) -> bool
    requires indexed { IsIndexed tables.now index.now }
    requires listed { Listed tables.now.shape.rows list_rows.now list_values.now }
    requires list_rows_value { all_below (length list_rows.now)
        (old_place (of_tables board tables.now) (roster_in tables.now.shape.rows index.now.records.now) (after_list tables.now.shape index.now.records.now list_rows.now list_values.now) list_rows.now) ≡ true }
    requires recalled { Recalled tables.now.shape tables.now.marks.now judged.old }
    ensures { (result ≡ all_below (length list_rows.now) (new_place (the_board tables.now) (roster_after tables.now index.now list_rows list_values) list_rows.now list_values.now))
        × Recalled tables.now.shape tables.now.marks.now judged.new }
{
    for i in 0..list_rows.len() {
        if !new_passes(judged, tables, index, list_rows, list_values, i) {
            return false;
        }
    }
    true
}

// Both places of every edit pass. Those that rows leave come first: in a round of rows they are all
// there are.
fn edits_pass(
    judged: &mut [u64],
    tables: &Tables<'_>,
    index: &Index<'_, '_>,
    list_rows: &[usize],
    list_values: &[usize],
) -> bool
    requires indexed { IsIndexed tables.now index.now }
    requires listed { Listed tables.now.shape.rows list_rows.now list_values.now }
    requires recalled { Recalled tables.now.shape tables.now.marks.now judged.old }
    ensures { (result ≡ all_below (length list_rows.now)
        (edit_places (the_board tables.now) (the_roster tables.now index.now) (roster_after tables.now index.now list_rows list_values) list_rows.now list_values.now))
        × Recalled tables.now.shape tables.now.marks.now judged.new }
{
    if !old_places_pass(judged, tables, index, list_rows, list_values) {
        return false;
    }
    new_places_pass(judged, tables, index, list_rows, list_values)
}

// Under the edge rule, the pairs around each touched place are allowed after the list.
pub fn edges_pass(
    tables: &Tables<'_>,
    index: &Index<'_, '_>,
    list_rows: &[usize],
    list_values: &[usize],
) -> bool
    requires indexed { IsIndexed tables.now index.now }
    requires listed { Listed tables.now.shape.rows list_rows.now list_values.now }
    ensures { result ≡ edges_pass (the_board tables.now) (the_roster tables.now index.now) (edits list_rows.now list_values.now) }
{
    if !lookup::has_assignment_rule(tables.shape) {
        return true;
    }
    if list_rows.len() <= FEW {
        let mut none = [0u64; 1];
        return edits_pass(&mut none, tables, index, list_rows, list_values);
    }
    let mut judged = judged_pairs::nothing_judged();
    edits_pass(&mut judged, tables, index, list_rows, list_values)
}

// Under the edge rule, the named row with the value and every other row after the list are an allowed pair.
pub fn beside_passes(
    tables: &Tables<'_>,
    index: &Index<'_, '_>,
    list_rows: &[usize],
    list_values: &[usize],
    row: usize,
    value: usize,
) -> bool
    requires indexed { IsIndexed tables.now index.now }
    requires listed { Listed tables.now.shape.rows list_rows.now list_values.now }
    ensures { result ≡ not (the_board tables.now).rule
        || beside_passes (the_board tables.now) (roster_after tables.now index.now list_rows list_values) row value }
{
    if !lookup::has_assignment_rule(tables.shape) {
        return true;
    }
    let mut none = [0u64; 1];
    around::row_passes(&mut none, tables, index, list_rows, list_values, row, value)
}
