// The places right below and right above a place, after a list: with every row there, or with one
// named row.
ghost use Rattle.std.specs.Prelude.{◌≡◌, true, false, ◌&&◌, ℕ, ◌+◌, Option};
ghost use Rattle.basics.specs.Edits.{Listed};
ghost use Rattle.rules.specs.Board.{Board};
ghost use Rattle.rules.specs.Neighbours.{below, above};
ghost use Rattle.rules.specs.FinalTest.{place_passes};
ghost use Rattle.rules.specs.Reinsertion.{beside_passes};
ghost use Rattle.assignment_tables.specs.Tables.{sequence_at, the_board, of_tables};
ghost use Rattle.assignment_index.specs.Index.{Indexed, IsIndexed};
ghost use Rattle.overlay_pairs.specs.Pairs.{beside_all, between_all, if_any, rows_at, start_at, roster_after, Recalled};

use assignment_index::{Index, columns, rows};
use assignment_tables::{Shape, Tables, lookup};
use overlay_pairs::{between, pairs};
use sequence_steps::{sequence_above, sequence_below};

// Every row at the place and every row right above it are an allowed pair; here are the rows of the
// index at the place, and next is where those behind them start.
fn above_passes(
    judged: &mut [u64],
    tables: &Tables<'_>,
    index: &Index<'_, '_>,
    list_rows: &[usize],
    list_values: &[usize],
    value: usize,
    sequence: usize,
    here: &[usize],
    next: usize,
) -> bool
    requires indexed { IsIndexed tables.now index.now }
    requires listed { Listed tables.now.shape.rows list_rows.now list_values.now }
    requires here_value { (here.now ≡ rows_at tables.now.shape index.now.records.now value sequence) × (next ≡ start_at tables.now.shape index.now.records.now index.now.members.now value (sequence + 1)) }
    requires recalled { Recalled tables.now.shape tables.now.marks.now judged.old }
    ensures { ((B : Board) → result ≡ if_any (above B sequence) (of_tables between_all tables.now (roster_after tables.now index.now list_rows list_values) value sequence))
        × Recalled tables.now.shape tables.now.marks.now judged.new }
{
    let Some(high) = sequence_above(sequence) else {
        return true;
    };
    let part = rows::by_sequence();
    let rights = columns::part_from(tables.shape.rows, index, part, value, high, next);
    between::between(
        judged,
        tables,
        list_rows,
        list_values,
        value,
        sequence,
        high,
        here,
        rights,
    )
}

// The same, where those at the place start at `start`.
fn from_here(
    judged: &mut [u64],
    tables: &Tables<'_>,
    index: &Index<'_, '_>,
    list_rows: &[usize],
    list_values: &[usize],
    value: usize,
    sequence: usize,
    start: usize,
) -> bool
    requires indexed { IsIndexed tables.now index.now }
    requires listed { Listed tables.now.shape.rows list_rows.now list_values.now }
    requires start_value { start ≡ start_at tables.now.shape index.now.records.now index.now.members.now value sequence }
    requires recalled { Recalled tables.now.shape tables.now.marks.now judged.old }
    ensures { ((B : Board) → result ≡ if_any (above B sequence) (of_tables between_all tables.now (roster_after tables.now index.now list_rows list_values) value sequence))
        × Recalled tables.now.shape tables.now.marks.now judged.new }
{
    let part = rows::by_sequence();
    let here = columns::part_from(tables.shape.rows, index, part, value, sequence, start);
    let next = start + here.len();
    above_passes(
        judged,
        tables,
        index,
        list_rows,
        list_values,
        value,
        sequence,
        here,
        next,
    )
}

// Every row at the place and every row right below it or above it are an allowed pair, where those
// below start at `first`: they, those at the place and those above stand one behind the other.
fn from_below(
    judged: &mut [u64],
    tables: &Tables<'_>,
    index: &Index<'_, '_>,
    list_rows: &[usize],
    list_values: &[usize],
    value: usize,
    low: usize,
    sequence: usize,
    first: usize,
) -> bool
    requires indexed { IsIndexed tables.now index.now }
    requires listed { Listed tables.now.shape.rows list_rows.now list_values.now }
    requires sequence_value { (sequence ≡ low + 1) × (first ≡ start_at tables.now.shape index.now.records.now index.now.members.now value low) }
    requires recalled { Recalled tables.now.shape tables.now.marks.now judged.old }
    ensures { ((B : Board) → result ≡ of_tables between_all tables.now (roster_after tables.now index.now list_rows list_values) value low sequence
        && if_any (above B sequence) (of_tables between_all tables.now (roster_after tables.now index.now list_rows list_values) value sequence))
        × Recalled tables.now.shape tables.now.marks.now judged.new }
{
    let part = rows::by_sequence();
    let lefts = columns::part_from(tables.shape.rows, index, part, value, low, first);
    let start = first + lefts.len();
    let here = columns::part_from(tables.shape.rows, index, part, value, sequence, start);
    if !between::between(
        judged,
        tables,
        list_rows,
        list_values,
        value,
        low,
        sequence,
        lefts,
        here,
    ) {
        return false;
    }
    let next = start + here.len();
    above_passes(
        judged,
        tables,
        index,
        list_rows,
        list_values,
        value,
        sequence,
        here,
        next,
    )
}

// The same with one bisection, for whatever stands right below the sequence.
fn sides_pass(
    judged: &mut [u64],
    tables: &Tables<'_>,
    index: &Index<'_, '_>,
    list_rows: &[usize],
    list_values: &[usize],
    value: usize,
    sequence: usize,
) -> bool
    requires indexed { IsIndexed tables.now index.now }
    requires listed { Listed tables.now.shape.rows list_rows.now list_values.now }
    requires recalled { Recalled tables.now.shape tables.now.marks.now judged.old }
    ensures { ((B : Board) → result ≡ if_any (below B sequence) (λ (low : ℕ). of_tables between_all tables.now (roster_after tables.now index.now list_rows list_values) value low sequence)
        && if_any (above B sequence) (of_tables between_all tables.now (roster_after tables.now index.now list_rows list_values) value sequence))
        × Recalled tables.now.shape tables.now.marks.now judged.new }
{
    let part = rows::by_sequence();
    match sequence_below(sequence) {
        Some(low) => {
            let first = columns::part_start(tables.shape.rows, index, part, value, low);
            from_below(
                judged,
                tables,
                index,
                list_rows,
                list_values,
                value,
                low,
                sequence,
                first,
            )
        }
        None => {
            let start = columns::part_start(tables.shape.rows, index, part, value, sequence);
            from_here(
                judged,
                tables,
                index,
                list_rows,
                list_values,
                value,
                sequence,
                start,
            )
        }
    }
}

// The pairs around the place that the row has at the value, if any, are allowed after the list.
pub fn place_passes(
    judged: &mut [u64],
    tables: &Tables<'_>,
    index: &Index<'_, '_>,
    list_rows: &[usize],
    list_values: &[usize],
    row: usize,
    value: usize,
) -> bool
    requires indexed { IsIndexed tables.now index.now }
    requires listed { Listed tables.now.shape.rows list_rows.now list_values.now }
    requires recalled { Recalled tables.now.shape tables.now.marks.now judged.old }
    ensures { (result ≡ place_passes (the_board tables.now) (roster_after tables.now index.now list_rows list_values) value (of_tables sequence_at tables.now row value))
        × Recalled tables.now.shape tables.now.marks.now judged.new }
{
    let Some(sequence) = lookup::sequence_key(tables, row, value) else {
        return true;
    };
    sides_pass(
        judged,
        tables,
        index,
        list_rows,
        list_values,
        value,
        sequence,
    )
}

// The named row and every other row at the sequence beside its own, if there is one, are an allowed
// pair; these stand on its right, or on its left.
fn side_passes(
    judged: &mut [u64],
    tables: &Tables<'_>,
    index: &Index<'_, '_>,
    list_rows: &[usize],
    list_values: &[usize],
    right: bool,
    row: usize,
    value: usize,
    beside: Option<usize>,
) -> bool
    requires indexed { IsIndexed tables.now index.now }
    requires listed { Listed tables.now.shape.rows list_rows.now list_values.now }
    requires recalled { Recalled tables.now.shape tables.now.marks.now judged.old }
    ensures { (result ≡ if_any beside (λ (s : ℕ). of_tables beside_all tables.now (roster_after tables.now index.now list_rows list_values) right value s row))
        × Recalled tables.now.shape tables.now.marks.now judged.new }
{
    let Some(sequence) = beside else {
        return true;
    };
    let part = rows::by_sequence();
    let others = columns::part_members(tables.shape.rows, index, part, value, sequence);
    pairs::beside_all(
        judged,
        tables,
        list_rows,
        list_values,
        right,
        value,
        sequence,
        row,
        others,
    )
}

// The named row with the value and every other row after the list are an allowed pair.
pub fn row_passes(
    judged: &mut [u64],
    tables: &Tables<'_>,
    index: &Index<'_, '_>,
    list_rows: &[usize],
    list_values: &[usize],
    row: usize,
    value: usize,
) -> bool
    requires indexed { IsIndexed tables.now index.now }
    requires listed { Listed tables.now.shape.rows list_rows.now list_values.now }
    requires recalled { Recalled tables.now.shape tables.now.marks.now judged.old }
    ensures { (result ≡ beside_passes (the_board tables.now) (roster_after tables.now index.now list_rows list_values) row value)
        × Recalled tables.now.shape tables.now.marks.now judged.new }
{
    let Some(sequence) = lookup::sequence_key(tables, row, value) else {
        return true;
    };
    let low = sequence_below(sequence);
    let high = sequence_above(sequence);
    if !side_passes(
        judged,
        tables,
        index,
        list_rows,
        list_values,
        false,
        row,
        value,
        low,
    ) {
        return false;
    }
    side_passes(
        judged,
        tables,
        index,
        list_rows,
        list_values,
        true,
        row,
        value,
        high,
    )
}
