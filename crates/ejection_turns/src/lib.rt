// The rows of a window put back one by one, once all are lifted out. docs/RULES.md, 9.1 to 9.3.

#![tactic(auto)]

ghost use Rattle.std.specs.Prelude.{◌≡◌, not, ◌<◌, ◌≤◌, length, get_or, set};
ghost use Rattle.rotation.specs.Rotation.{rotated};
ghost use Rattle.assignment_tables.specs.Tables.{the_board, of_tables};
ghost use Rattle.assignment_index.specs.Index.{Indexed, the_roster, IsIndexed, of_index};
ghost use Rattle.ejection_turns.specs.Ejection.{allowed_at, is_there, or_empty, stuck, turned, put_back, places_from};
ghost use Rattle.ejection_turns.specs.Turns.{taken_in, Returning};

use assignment_index::Index;
use assignment_overlay::test;
use assignment_tables::{EMPTY, Shape, Tables, candidates, lookup};

// The j-th of the candidates, going round from the number of the attempt.
fn candidate_round(offered: &[u8], attempt: usize, j: usize) -> usize
    requires { (j < length offered.now) × (length offered.now ≤ 128) }
    ensures { result ≡ get_or (rotated attempt offered.now) j 0 }
{
    let at = rotation::place_round(attempt, j, offered.len());
    offered[at] as usize
}

// Writes the value at the position: whether the row there may take it, whatever the ranks.
fn try_value(
    tables: &Tables<'_>,
    index: &Index<'_, '_>,
    window: &[usize],
    values: &mut [usize],
    i: usize,
    value: usize,
) -> bool
    requires indexed { IsIndexed tables.now index.now }
    requires i_in_bounds { (i < length window.now) × (length window.now ≡ length values.old) }
    ensures value { result ≡ allowed_at (the_board tables.now) (the_roster tables.now index.now) window.now values.old i value }
    ensures values_value { values.new ≡ set values.old i value }
{
    values[i] = value;
    let row = window[i];
    test::reinsert_test(tables, index, window, values, row, value)
}

// Leaves at the position the first candidate that the row there may take, or nothing: whether there is one.
fn take_value(
    tables: &Tables<'_>,
    index: &Index<'_, '_>,
    window: &[usize],
    values: &mut [usize],
    i: usize,
    attempt: usize,
    limit: Option<usize>,
) -> bool
    requires returning { of_index Returning tables.now index.now }
    requires i_in_bounds { (i < length window.now) × (length window.now ≡ length values.old) }
    ensures value { result ≡ is_there (of_tables taken_in tables.now index.now.records.now limit attempt window.now values.old i) }
    ensures values_value { values.new ≡ set values.old i (or_empty (of_tables taken_in tables.now index.now.records.now limit attempt window.now values.old i)) }
{
    let offered = candidates::candidate_values(tables, window[i], limit);
    let mut j = 0;
    while j < offered.len() {
        let value = candidate_round(offered, attempt, j);
        if try_value(tables, index, window, values, i, value) {
            return true;
        }
        j += 1;
    }
    values[i] = EMPTY;
    false
}

// The same, and whether that may stand: a required row must have found one.
fn put_back(
    tables: &Tables<'_>,
    index: &Index<'_, '_>,
    window: &[usize],
    values: &mut [usize],
    i: usize,
    attempt: usize,
    limit: Option<usize>,
) -> bool
    requires returning { of_index Returning tables.now index.now }
    requires i_in_bounds { (i < length window.now) × (length window.now ≡ length values.old) }
    ensures value { result ≡ not (stuck (the_board tables.now) window.now i (of_tables taken_in tables.now index.now.records.now limit attempt window.now values.old i)) }
    ensures values_value { values.new ≡ set values.old i (or_empty (of_tables taken_in tables.now index.now.records.now limit attempt window.now values.old i)) }
{
    if take_value(tables, index, window, values, i, attempt, limit) {
        return true;
    }
    !lookup::is_required(tables, window[i])
}

// Puts back the rows at all positions, going round from the number of the attempt: whether no required row is left without a value.
pub fn put_all_back(
    tables: &Tables<'_>,
    index: &Index<'_, '_>,
    window: &[usize],
    values: &mut [usize],
    attempt: usize,
    limit: Option<usize>,
) -> bool
    requires returning { of_index Returning tables.now index.now }
    requires window_len_bound { (length window.now ≤ 128) × (length window.now ≡ length values.old) }
    ensures { turned result values.new ≡ put_back (the_board tables.now) (the_roster tables.now index.now) limit attempt window.now (places_from attempt window.now) values.old }
{
    let mut i = 0;
    while i < window.len() {
        let at = rotation::place_round(attempt, i, window.len());
        if !put_back(tables, index, window, values, at, attempt, limit) {
            return false;
        }
        i += 1;
    }
    true
}
