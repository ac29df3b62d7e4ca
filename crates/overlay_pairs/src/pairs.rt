// One row and the rows that stand at a place after a list: rows of the index that the list does not
// name, and rows that the list puts there.
ghost use Rattle.std.specs.Prelude.{◌≡◌, not, ◌||◌, ◌<◌, length};
ghost use Rattle.basics.specs.Tests.{all_below, among, is};
ghost use Rattle.assignment_tables.specs.Layout.{Marked, keys_length};
ghost use Rattle.assignment_tables.specs.Tables.{sequence_at, edge_at, of_tables};
ghost use Rattle.overlay_pairs.specs.Pairs.{has_place, stayer_passes, arrival_passes, pair_passes, beside_there, Recalled};

use assignment_tables::{Shape, Tables, lookup};

// The ordered pair is allowed: remembered, or looked up, and then remembered, where there is a
// memory. Nothing else reads or writes it.
fn pair_allowed(judged: &mut [u64], tables: &Tables<'_>, left: usize, right: usize) -> bool
    requires marked { Marked tables.now.shape tables.now.marks.now }
    requires recalled { Recalled tables.now.shape tables.now.marks.now judged.old }
    ensures { (result ≡ edge_at tables.now.shape tables.now.marks.now left right) × Recalled tables.now.shape tables.now.marks.now judged.new }
{
    if judged.len() != 256 {
        return lookup::assignment_edge_allowed(tables, left, right);
    }
    if left >= 128 {
        return lookup::assignment_edge_allowed(tables, left, right);
    }
    if right >= 128 {
        return lookup::assignment_edge_allowed(tables, left, right);
    }
    if judged_pairs::is_judged(judged, left, right) {
        return true;
    }
    if !lookup::assignment_edge_allowed(tables, left, right) {
        return false;
    }
    judged_pairs::remember(judged, left, right);
    true
}

// A row and another one on its right, or on its left, are an allowed pair.
fn pair_passes(
    judged: &mut [u64],
    tables: &Tables<'_>,
    right: bool,
    row: usize,
    other: usize,
) -> bool
    requires marked { Marked tables.now.shape tables.now.marks.now }
    requires recalled { Recalled tables.now.shape tables.now.marks.now judged.old }
    ensures { (result ≡ pair_passes (edge_at tables.now.shape tables.now.marks.now) right row other) × Recalled tables.now.shape tables.now.marks.now judged.new }
{
    if row == other {
        return true;
    }
    if right {
        return pair_allowed(judged, tables, row, other);
    }
    pair_allowed(judged, tables, other, row)
}

// The list names the row.
pub fn is_listed(list_rows: &[usize], row: usize) -> bool
    ensures { result ≡ among row list_rows.now }
{
    list_rows.contains(&row)
}

// The row's sequence at the value is this one.
fn has_sequence(tables: &Tables<'_>, row: usize, value: usize, sequence: usize) -> bool
    requires marked { Marked tables.now.shape tables.now.marks.now }
    requires keys_len { length tables.now.keys.now ≡ keys_length tables.now.shape }
    ensures { result ≡ is sequence (of_tables sequence_at tables.now row value) }
{
    lookup::sequence_key(tables, row, value) == Some(sequence)
}

// The row, holding `held`, stands at the place.
pub fn has_place(
    tables: &Tables<'_>,
    row: usize,
    held: usize,
    value: usize,
    sequence: usize,
) -> bool
    requires marked { Marked tables.now.shape tables.now.marks.now }
    requires keys_len { length tables.now.keys.now ≡ keys_length tables.now.shape }
    ensures { result ≡ has_place (of_tables sequence_at tables.now) value sequence row held }
{
    if held != value {
        return false;
    }
    has_sequence(tables, row, held, sequence)
}

// The list names the other row, or the pair is allowed, which is asked first: most are.
fn stayer_passes(
    judged: &mut [u64],
    tables: &Tables<'_>,
    list_rows: &[usize],
    right: bool,
    row: usize,
    other: usize,
) -> bool
    requires marked { Marked tables.now.shape tables.now.marks.now }
    requires recalled { Recalled tables.now.shape tables.now.marks.now judged.old }
    ensures { (result ≡ among other list_rows.now || pair_passes (edge_at tables.now.shape tables.now.marks.now) right row other) × Recalled tables.now.shape tables.now.marks.now judged.new }
{
    if pair_passes(judged, tables, right, row, other) {
        return true;
    }
    is_listed(list_rows, other)
}

// The same of every row of a slice.
fn stayers_pass(
    judged: &mut [u64],
    tables: &Tables<'_>,
    list_rows: &[usize],
    right: bool,
    row: usize,
    others: &[usize],
) -> bool
    requires marked { Marked tables.now.shape tables.now.marks.now }
    requires recalled { Recalled tables.now.shape tables.now.marks.now judged.old }
    ensures { (result ≡ all_below (length others.now) (stayer_passes list_rows.now others.now (pair_passes (edge_at tables.now.shape tables.now.marks.now) right row)))
        × Recalled tables.now.shape tables.now.marks.now judged.new }
{
    for &other in others {
        if !stayer_passes(judged, tables, list_rows, right, row, other) {
            return false;
        }
    }
    true
}

// The edit puts its row elsewhere, or the pair is allowed.
fn arrival_passes(
    judged: &mut [u64],
    tables: &Tables<'_>,
    right: bool,
    row: usize,
    other: usize,
    held: usize,
    value: usize,
    sequence: usize,
) -> bool
    requires marked { Marked tables.now.shape tables.now.marks.now }
    requires keys_len { length tables.now.keys.now ≡ keys_length tables.now.shape }
    requires recalled { Recalled tables.now.shape tables.now.marks.now judged.old }
    ensures { (result ≡ not (has_place (of_tables sequence_at tables.now) value sequence other held)
        || pair_passes (edge_at tables.now.shape tables.now.marks.now) right row other) × Recalled tables.now.shape tables.now.marks.now judged.new }
{
    if !has_place(tables, other, held, value, sequence) {
        return true;
    }
    pair_passes(judged, tables, right, row, other)
}

// The same of every edit of the list.
fn arrivals_pass(
    judged: &mut [u64],
    tables: &Tables<'_>,
    list_rows: &[usize],
    list_values: &[usize],
    right: bool,
    row: usize,
    value: usize,
    sequence: usize,
) -> bool
    requires marked { Marked tables.now.shape tables.now.marks.now }
    requires keys_len { (length tables.now.keys.now ≡ keys_length tables.now.shape) × (length list_rows.now ≡ length list_values.now) }
    requires recalled { Recalled tables.now.shape tables.now.marks.now judged.old }
    ensures { (result ≡ all_below (length list_rows.now)
        (arrival_passes (of_tables sequence_at tables.now) list_rows.now list_values.now value sequence (pair_passes (edge_at tables.now.shape tables.now.marks.now) right row)))
        × Recalled tables.now.shape tables.now.marks.now judged.new }
{
    for i in 0..list_rows.len() {
        let other = list_rows[i];
        let held = list_values[i];
        if !arrival_passes(judged, tables, right, row, other, held, value, sequence) {
            return false;
        }
    }
    true
}

// A row and every row that stands at the place after the list, on its right or on its left, are an
// allowed pair; the others are the rows that stand there before it.
pub fn beside_all(
    judged: &mut [u64],
    tables: &Tables<'_>,
    list_rows: &[usize],
    list_values: &[usize],
    right: bool,
    value: usize,
    sequence: usize,
    row: usize,
    others: &[usize],
) -> bool
    requires marked { Marked tables.now.shape tables.now.marks.now }
    requires keys_len { (length tables.now.keys.now ≡ keys_length tables.now.shape) × (length list_rows.now ≡ length list_values.now) }
    requires recalled { Recalled tables.now.shape tables.now.marks.now judged.old }
    ensures { (result ≡ of_tables beside_there tables.now list_rows.now list_values.now others.now right value sequence row)
        × Recalled tables.now.shape tables.now.marks.now judged.new }
{
    if !stayers_pass(judged, tables, list_rows, right, row, others) {
        return false;
    }
    arrivals_pass(
        judged,
        tables,
        list_rows,
        list_values,
        right,
        row,
        value,
        sequence,
    )
}
