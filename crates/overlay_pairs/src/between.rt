// The rows that stand at one place after a list, and those that stand at another.
ghost use Rattle.std.specs.Prelude.{◌≡◌, true, ◌||◌, ◌<◌, length};
ghost use Rattle.basics.specs.Tests.{all_below, among};
ghost use Rattle.assignment_tables.specs.Layout.{Marked, keys_length};
ghost use Rattle.assignment_tables.specs.Tables.{sequence_at, of_tables};
ghost use Rattle.overlay_pairs.specs.Pairs.{stayer_passes, arrival_passes, beside_there, between_there, Recalled};

use crate::pairs;
use assignment_tables::{Shape, Tables};

// The list names the left row, or it and every row at the place are an allowed pair.
fn left_passes(
    judged: &mut [u64],
    tables: &Tables<'_>,
    list_rows: &[usize],
    list_values: &[usize],
    value: usize,
    sequence: usize,
    left: usize,
    rights: &[usize],
) -> bool
    requires marked { Marked tables.now.shape tables.now.marks.now }
    requires keys_len { (length tables.now.keys.now ≡ keys_length tables.now.shape) × (length list_rows.now ≡ length list_values.now) }
    requires recalled { Recalled tables.now.shape tables.now.marks.now judged.old }
    ensures { (result ≡ among left list_rows.now
        || of_tables beside_there tables.now list_rows.now list_values.now rights.now true value sequence left)
        × Recalled tables.now.shape tables.now.marks.now judged.new }
{
    if pairs::is_listed(list_rows, left) {
        return true;
    }
    pairs::beside_all(
        judged,
        tables,
        list_rows,
        list_values,
        true,
        value,
        sequence,
        left,
        rights,
    )
}

// The same of every row of a slice.
fn lefts_pass(
    judged: &mut [u64],
    tables: &Tables<'_>,
    list_rows: &[usize],
    list_values: &[usize],
    value: usize,
    sequence: usize,
    others: &[usize],
    rights: &[usize],
) -> bool
    requires marked { Marked tables.now.shape tables.now.marks.now }
    requires keys_len { (length tables.now.keys.now ≡ keys_length tables.now.shape) × (length list_rows.now ≡ length list_values.now) }
    requires recalled { Recalled tables.now.shape tables.now.marks.now judged.old }
    ensures { (result ≡ all_below (length others.now) (stayer_passes list_rows.now others.now
        (of_tables beside_there tables.now list_rows.now list_values.now rights.now true value sequence)))
        × Recalled tables.now.shape tables.now.marks.now judged.new }
{
    for &left in others {
        if !left_passes(
            judged,
            tables,
            list_rows,
            list_values,
            value,
            sequence,
            left,
            rights,
        ) {
            return false;
        }
    }
    true
}

// The i-th edit puts its row elsewhere than at `low`, or the row and every row at `high` are an
// allowed pair.
fn new_left_passes(
    judged: &mut [u64],
    tables: &Tables<'_>,
    list_rows: &[usize],
    list_values: &[usize],
    value: usize,
    low: usize,
    high: usize,
    i: usize,
    rights: &[usize],
) -> bool
    requires marked { Marked tables.now.shape tables.now.marks.now }
    requires keys_len { (length tables.now.keys.now ≡ keys_length tables.now.shape) × (length list_rows.now ≡ length list_values.now) }
    requires i_in_bounds { i < length list_rows.now }
    requires recalled { Recalled tables.now.shape tables.now.marks.now judged.old }
    ensures { (result ≡ arrival_passes (of_tables sequence_at tables.now) list_rows.now list_values.now value low
        (of_tables beside_there tables.now list_rows.now list_values.now rights.now true value high) i)
        × Recalled tables.now.shape tables.now.marks.now judged.new }
{
    let left = list_rows[i];
    let held = list_values[i];
    if !pairs::has_place(tables, left, held, value, low) {
        return true;
    }
    pairs::beside_all(
        judged,
        tables,
        list_rows,
        list_values,
        true,
        value,
        high,
        left,
        rights,
    )
}

// The same of every edit of the list.
fn new_lefts_pass(
    judged: &mut [u64],
    tables: &Tables<'_>,
    list_rows: &[usize],
    list_values: &[usize],
    value: usize,
    low: usize,
    high: usize,
    rights: &[usize],
) -> bool
    requires marked { Marked tables.now.shape tables.now.marks.now }
    requires keys_len { (length tables.now.keys.now ≡ keys_length tables.now.shape) × (length list_rows.now ≡ length list_values.now) }
    requires recalled { Recalled tables.now.shape tables.now.marks.now judged.old }
    ensures { (result ≡ all_below (length list_rows.now) (arrival_passes (of_tables sequence_at tables.now) list_rows.now list_values.now value low
        (of_tables beside_there tables.now list_rows.now list_values.now rights.now true value high)))
        × Recalled tables.now.shape tables.now.marks.now judged.new }
{
    for i in 0..list_rows.len() {
        if !new_left_passes(
            judged,
            tables,
            list_rows,
            list_values,
            value,
            low,
            high,
            i,
            rights,
        ) {
            return false;
        }
    }
    true
}

// Every row that stands at the sequence `low` of the value after the list and every row at `high`
// are an allowed pair; lefts and rights are the rows that stand there before it.
pub fn between(
    judged: &mut [u64],
    tables: &Tables<'_>,
    list_rows: &[usize],
    list_values: &[usize],
    value: usize,
    low: usize,
    high: usize,
    lefts: &[usize],
    rights: &[usize],
) -> bool
    requires marked { Marked tables.now.shape tables.now.marks.now }
    requires keys_len { (length tables.now.keys.now ≡ keys_length tables.now.shape) × (length list_rows.now ≡ length list_values.now) }
    requires recalled { Recalled tables.now.shape tables.now.marks.now judged.old }
    ensures { (result ≡ of_tables between_there tables.now list_rows.now list_values.now lefts.now rights.now value low high)
        × Recalled tables.now.shape tables.now.marks.now judged.new }
{
    if !lefts_pass(
        judged,
        tables,
        list_rows,
        list_values,
        value,
        high,
        lefts,
        rights,
    ) {
        return false;
    }
    new_lefts_pass(
        judged,
        tables,
        list_rows,
        list_values,
        value,
        low,
        high,
        rights,
    )
}
