// Whether the edits of the search's list leave a row clear of those whom they move. A row may stand
// twice in it: its last edit counts.
ghost use Rattle.std.specs.Prelude.{◌≡◌, ◌<◌, length};
ghost use Rattle.basics.specs.Tests.{all_below};
ghost use Rattle.rules.specs.Neighbours.{beside, beside_allowed};
ghost use Rattle.assignment_tables.specs.Layout.{Marked, keys_length};
ghost use Rattle.assignment_tables.specs.Tables.{capacity_at, the_board, of_tables};
ghost use Rattle.search_rules.specs.Blockers.{shares};
ghost use Rattle.path_clearance.specs.Clearance.{clear_of, arrival_clear};

use assignment_tables::{Shape, Tables, lookup};
use overlay_pairs::pairs;

// The two holdings share a capacity key.
fn share_key(tables: &Tables<'_>, row: usize, value: usize, other: usize, held: usize) -> bool
    requires marked { Marked tables.now.shape tables.now.marks.now }
    requires keys_len { length tables.now.keys.now ≡ keys_length tables.now.shape }
    ensures { result ≡ shares (of_tables capacity_at tables.now row value) (of_tables capacity_at tables.now other held) }
{
    let Some(key) = lookup::capacity_key(tables, row, value) else {
        return false;
    };
    overlay_capacity::has_key(tables, other, held, key)
}

// The left row, holding its value, stands right before the right one, whatever the ranks.
fn stands_before(
    tables: &Tables<'_>,
    left: usize,
    left_value: usize,
    right: usize,
    right_value: usize,
) -> bool
    requires marked { Marked tables.now.shape tables.now.marks.now }
    requires keys_len { length tables.now.keys.now ≡ keys_length tables.now.shape }
    ensures { result ≡ beside (the_board tables.now) left left_value right right_value }
{
    if left == right {
        return false;
    }
    let Some(sequence) = lookup::sequence_key(tables, left, left_value) else {
        return false;
    };
    let Some(next) = sequence_steps::sequence_above(sequence) else {
        return false;
    };
    pairs::has_place(tables, right, right_value, left_value, next)
}

// If it does, the pair is allowed.
fn pair_fits(
    tables: &Tables<'_>,
    left: usize,
    left_value: usize,
    right: usize,
    right_value: usize,
) -> bool
    requires marked { Marked tables.now.shape tables.now.marks.now }
    requires keys_len { length tables.now.keys.now ≡ keys_length tables.now.shape }
    ensures { result ≡ beside_allowed (the_board tables.now) left left_value right right_value }
{
    if stands_before(tables, left, left_value, right, right_value) {
        return lookup::assignment_edge_allowed(tables, left, right);
    }
    true
}

// The other row, holding its value, does not block this one.
fn clear_of(tables: &Tables<'_>, row: usize, value: usize, other: usize, held: usize) -> bool
    requires marked { Marked tables.now.shape tables.now.marks.now }
    requires keys_len { length tables.now.keys.now ≡ keys_length tables.now.shape }
    ensures { result ≡ clear_of (the_board tables.now) row value other held }
{
    if share_key(tables, row, value, other, held) {
        return false;
    }
    if !lookup::has_assignment_rule(tables.shape) {
        return true;
    }
    if !pair_fits(tables, other, held, row, value) {
        return false;
    }
    pair_fits(tables, row, value, other, held)
}

// The i-th edit of the list leaves its row clear of this one.
fn arrival_clear(
    tables: &Tables<'_>,
    list_rows: &[usize],
    list_values: &[usize],
    row: usize,
    value: usize,
    i: usize,
) -> bool
    requires marked { Marked tables.now.shape tables.now.marks.now }
    requires keys_len { length tables.now.keys.now ≡ keys_length tables.now.shape }
    requires i_in_bounds { (i < length list_rows.now) × (length list_rows.now ≡ length list_values.now) }
    ensures { result ≡ arrival_clear (the_board tables.now) list_rows.now list_values.now row value i }
{
    let other = list_rows[i];
    if other == row {
        return true;
    }
    if pairs::is_listed(&list_rows[i + 1..], other) {
        return true;
    }
    clear_of(tables, row, value, other, list_values[i])
}

// The same of every edit.
pub fn arrivals_clear(
    tables: &Tables<'_>,
    list_rows: &[usize],
    list_values: &[usize],
    row: usize,
    value: usize,
) -> bool
    requires marked { Marked tables.now.shape tables.now.marks.now }
    requires keys_len { length tables.now.keys.now ≡ keys_length tables.now.shape }
    requires list_rows_len { length list_rows.now ≡ length list_values.now }
    ensures { result ≡ all_below (length list_rows.now) (arrival_clear (the_board tables.now) list_rows.now list_values.now row value) }
{
    for i in 0..list_rows.len() {
        if !arrival_clear(tables, list_rows, list_values, row, value, i) {
            return false;
        }
    }
    true
}
