// Whether each touched capacity key has room after a list: holders by the index, arrivals and
// departures by the list. docs/RULES.md, 3.4.

#![tactic(auto)]

ghost use Rattle.std.specs.Prelude.{◌≡◌, true, ◌≤◌, ◌<◌, length};
ghost use Rattle.basics.specs.Tests.{is, all_below, count_below, distinct};
ghost use Rattle.basics.specs.Edits.{edits, Listed, all_rows};
ghost use Rattle.rules.specs.Roster.{after};
ghost use Rattle.rules.specs.FinalTest.{capacity_passes};
ghost use Rattle.assignment_tables.specs.Layout.{Marked, keys_length};
ghost use Rattle.assignment_tables.specs.Tables.{board, capacity_at, the_board, of_tables};
ghost use Rattle.assignment_index.specs.Columns.{records_length};
ghost use Rattle.assignment_index.specs.Index.{roster_in, Indexed, the_roster, IsIndexed};
ghost use Rattle.overlay_capacity.specs.Capacity.{held_by, Countable, arrives_at, leaves_at, departing, left_by, key_room, old_room, new_room};

use assignment_index::{Index, columns, rows};
use assignment_tables::{Shape, Tables, lookup};

// The row's key at the value is this one.
pub fn has_key(tables: &Tables<'_>, row: usize, value: usize, key: usize) -> bool
    requires marked { Marked tables.now.shape tables.now.marks.now }
    requires keys_len { length tables.now.keys.now ≡ keys_length tables.now.shape }
    ensures { result ≡ is key (of_tables capacity_at tables.now row value) }
{
    lookup::capacity_key(tables, row, value) == Some(key)
}

// How many rows hold the key.
fn holders(rows: usize, index: &Index<'_, '_>, key: usize) -> usize
    requires { Countable rows index.now.records.now index.now.members.now }
    ensures { (result ≡ held_by rows index.now.records.now key) × (result ≤ 128) }
{
    let part = rows::by_capacity();
    columns::part_members(rows, index, part, key, key).len()
}

// How many listed rows have the key under their new value.
fn arrivals(tables: &Tables<'_>, list_rows: &[usize], list_values: &[usize], key: usize) -> usize
    requires marked { Marked tables.now.shape tables.now.marks.now }
    requires keys_len { (length tables.now.keys.now ≡ keys_length tables.now.shape) × (length list_rows.now ≡ length list_values.now) }
    ensures { (result ≡ count_below (length list_rows.now) (arrives_at (of_tables capacity_at tables.now) list_rows.now list_values.now key)) × (result ≤ length list_rows.now) }
{
    let mut count = 0;
    for i in 0..list_rows.len() {
        if has_key(tables, list_rows[i], list_values[i], key) {
            count += 1;
        }
    }
    count
}

// The i-th listed row holds the key: the records have it, so that no table is read.
fn leaves(rows: usize, records: &[usize], list_rows: &[usize], i: usize, key: usize) -> bool
    requires { (rows ≤ 128) × (length records.now ≡ records_length rows) × (i < length list_rows.now) }
    ensures { result ≡ leaves_at rows records.now list_rows.now key i }
{
    let row = list_rows[i];
    if row < rows {
        let given = columns::cell(rows, records, 1, row);
        let number = columns::cell(rows, records, 2, row);
        return (given != 0) & (number == key);
    }
    false
}

// How many listed rows hold the key.
fn departures(rows: usize, records: &[usize], list_rows: &[usize], key: usize) -> usize
    requires { (rows ≤ 128) × (length records.now ≡ records_length rows) }
    ensures { (result ≡ departing rows records.now list_rows.now key) × (result ≤ length list_rows.now) }
{
    let mut count = 0;
    for i in 0..list_rows.len() {
        if leaves(rows, records, list_rows, i, key) {
            count += 1;
        }
    }
    count
}

// How many listed rows hold the key that the i-th of them leaves: where one row holds it, it is that
// one, and the list is not walked.
fn left_key_departures(
    rows: usize,
    records: &[usize],
    list_rows: &[usize],
    i: usize,
    key: usize,
    held: usize,
) -> usize
    requires rows_bound { (rows ≤ 128) × (length records.now ≡ records_length rows) }
    requires list_rows_value { (all_rows rows list_rows.now ≡ true) × (distinct list_rows.now ≡ true) }
    requires i_in_bounds { (i < length list_rows.now) × (leaves_at rows records.now list_rows.now key i ≡ true) }
    requires held_value { held ≡ held_by rows records.now key }
    ensures { (result ≡ departing rows records.now list_rows.now key) × (result ≤ length list_rows.now) }
{
    if held == 1 {
        return 1;
    }
    departures(rows, records, list_rows, key)
}

// A key, if there is one, has room after the list.
pub fn key_passes(
    tables: &Tables<'_>,
    index: &Index<'_, '_>,
    list_rows: &[usize],
    list_values: &[usize],
    key: Option<usize>,
) -> bool
    requires indexed { IsIndexed tables.now index.now }
    requires listed { Listed tables.now.shape.rows list_rows.now list_values.now }
    ensures { result ≡ key_room (the_board tables.now) (the_roster tables.now index.now) list_rows.now list_values.now key }
{
    let Some(key) = key else {
        return true;
    };
    let held = holders(tables.shape.rows, index, key);
    let arrived = arrivals(tables, list_rows, list_values, key);
    let left = departures(tables.shape.rows, index.records, list_rows, key);
    key_places::fits_places(held, arrived, left)
}

// The key that the i-th edit's row leaves has room.
fn old_passes(
    tables: &Tables<'_>,
    index: &Index<'_, '_>,
    list_rows: &[usize],
    list_values: &[usize],
    i: usize,
) -> bool
    requires indexed { IsIndexed tables.now index.now }
    requires listed { Listed tables.now.shape.rows list_rows.now list_values.now }
    requires i_in_bounds { i < length list_rows.now }
    ensures { result ≡ old_room (the_board tables.now) (the_roster tables.now index.now) list_rows.now list_values.now i }
{
    let row = list_rows[i];
    let value = columns::held_value(tables.shape.rows, index.records, row);
    let Some(key) = lookup::capacity_key(tables, row, value) else {
        return true;
    };
    let held = holders(tables.shape.rows, index, key);
    let arrived = arrivals(tables, list_rows, list_values, key);
    let leaving = left_key_departures(tables.shape.rows, index.records, list_rows, i, key, held);
    key_places::fits_places(held, arrived, leaving)
}

// Every key that a row leaves has room.
fn old_keys_pass(
    tables: &Tables<'_>,
    index: &Index<'_, '_>,
    list_rows: &[usize],
    list_values: &[usize],
) -> bool
    requires indexed { IsIndexed tables.now index.now }
    requires listed { Listed tables.now.shape.rows list_rows.now list_values.now }
    ensures { result ≡ all_below (length list_rows.now) (old_room (the_board tables.now) (the_roster tables.now index.now) list_rows.now list_values.now) }
{
    for i in 0..list_rows.len() {
        if !old_passes(tables, index, list_rows, list_values, i) {
            return false;
        }
    }
    true
}

// A listed row leaves the key.
fn is_left(rows: usize, records: &[usize], list_rows: &[usize], key: usize) -> bool
    requires { (rows ≤ 128) × (length records.now ≡ records_length rows) }
    ensures { result ≡ left_by rows records.now list_rows.now key }
{
    for i in 0..list_rows.len() {
        if leaves(rows, records, list_rows, i, key) {
            return true;
        }
    }
    false
}

// The key that the i-th edit's row arrives at has room. One that a listed row leaves was judged;
// else nobody departs from it.
fn new_passes(
    tables: &Tables<'_>,
    index: &Index<'_, '_>,
    list_rows: &[usize],
    list_values: &[usize],
    i: usize,
) -> bool
    requires indexed { IsIndexed tables.now index.now }
    requires listed { Listed tables.now.shape.rows list_rows.now list_values.now }
    requires list_values_value { all_below (length list_rows.now) (old_room (of_tables board tables.now) (roster_in tables.now.shape.rows index.now.records.now) list_rows.now list_values.now) ≡ true }
    requires i_in_bounds { i < length list_rows.now }
    ensures { result ≡ new_room (the_board tables.now) (the_roster tables.now index.now) list_rows.now list_values.now i }
{
    let Some(key) = lookup::capacity_key(tables, list_rows[i], list_values[i]) else {
        return true;
    };
    if is_left(tables.shape.rows, index.records, list_rows, key) {
        return true;
    }
    let held = holders(tables.shape.rows, index, key);
    let arrived = arrivals(tables, list_rows, list_values, key);
    key_places::fits_places(held, arrived, 0)
}

// Every key that a row arrives at has room, where those that rows leave have.
fn new_keys_pass(
    tables: &Tables<'_>,
    index: &Index<'_, '_>,
    list_rows: &[usize],
    list_values: &[usize],
) -> bool
    requires indexed { IsIndexed tables.now index.now }
    requires listed { Listed tables.now.shape.rows list_rows.now list_values.now }
    requires list_values_value { all_below (length list_rows.now) (old_room (of_tables board tables.now) (roster_in tables.now.shape.rows index.now.records.now) list_rows.now list_values.now) ≡ true }
    ensures { result ≡ all_below (length list_rows.now) (new_room (the_board tables.now) (the_roster tables.now index.now) list_rows.now list_values.now) }
{
    for i in 0..list_rows.len() {
        if !new_passes(tables, index, list_rows, list_values, i) {
            return false;
        }
    }
    true
}

// Every touched key has room after the list. Those that rows leave come first:
// in a round of rows they are all there are.
pub fn capacity_passes(
    tables: &Tables<'_>,
    index: &Index<'_, '_>,
    list_rows: &[usize],
    list_values: &[usize],
) -> bool
    requires indexed { IsIndexed tables.now index.now }
    requires listed { Listed tables.now.shape.rows list_rows.now list_values.now }
    ensures { result ≡ capacity_passes (the_board tables.now) (the_roster tables.now index.now) (edits list_rows.now list_values.now) }
{
    if !old_keys_pass(tables, index, list_rows, list_values) {
        return false;
    }
    new_keys_pass(tables, index, list_rows, list_values)
}
