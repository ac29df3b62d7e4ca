// The listing of a walk: every move from a cursor on, written line by line. docs/RULES.md, 12.4.

#![tactic(auto)]

ghost use Rattle.std.specs.Prelude.{◌≤◌, ◌+◌, length};
ghost use Rattle.assignment_tables.specs.Tables.{board, the_board, of_tables};
ghost use Rattle.assignment_index.specs.Index.{roster_in, Indexed, the_roster, IsIndexed};
ghost use Rattle.window_kinds.specs.Kinds.{rematching, first_cursor, Fitting};
ghost use Rattle.listing_text.specs.Output.{moves_from, listing_text};
ghost use Rattle.written_text.specs.Wrote.{Wrote};
ghost use Rattle.listing_moves.specs.WalkText.{moves_ahead, cut, Laid, Wide, Room, Bounded};

use assignment_index::Index;
use assignment_tables::{Shape, Tables};
use assignment_walk::onward::walk_on;
use listing_text::moves::{write_header, write_move};
use walk_answers::Progress;
use window_kinds::CycleWindowCursor;
use window_kinds::cursor::new_cursor;

// Writes the lines of moves that stand one behind the other, each with its number of edits; the first
// has this number. Answers the place behind them.
fn write_moves(
    out: &mut [u8],
    from: usize,
    first: usize,
    rows: &[usize],
    values: &[usize],
    lengths: &[usize],
) -> usize
    requires laid { Laid lengths.now rows.now values.now }
    requires values_in_bounds { from + length (moves_from first (cut lengths.now rows.now values.now)) ≤ length out.old }
    requires lengths_bound { first + length lengths.now ≤ 65537 }
    ensures { Wrote out.old from (moves_from first (cut lengths.now rows.now values.now)) out.new result }
{
    let mut at = from;
    let mut place = 0;
    for i in 0..lengths.len() {
        let end = place + lengths[i];
        at = write_move(out, at, first + i, &rows[place..end], &values[place..end]);
        place = end;
    }
    at
}

// Writes the lines of the moves from a cursor on, counted from 1, a walk at a time: as many moves as the
// room for them takes, and then from there on.
fn write_walks(
    tables: &Tables<'_>,
    index: &Index<'_, '_>,
    order: &[usize],
    first: CycleWindowCursor,
    all_rows: &mut [usize],
    all_values: &mut [usize],
    lengths: &mut [usize],
    out: &mut [u8],
    from: usize,
) -> usize
    requires indexed { IsIndexed tables.now index.now }
    requires order_len_bound { (length order.now ≤ 128) × Fitting rematching (length order.now) first }
    requires wide { Wide all_rows.old all_values.old lengths.old }
    requires room { Room (moves_ahead (of_tables board tables.now) (roster_in tables.now.shape.rows index.now.records.now) order.now first) from out.old }
    ensures { Wrote out.old from (moves_from 1 (moves_ahead (the_board tables.now) (the_roster tables.now index.now) order.now first)) out.new result }
{
    let mut at = from;
    let mut number = 1;
    let mut cursor = first;
    loop {
        let walk = walk_on(tables, index, order, cursor, all_rows, all_values, lengths);
        let answer = walk.answer;
        let progress = match answer {
            Err(_) => return at,
            Ok(progress) => progress,
        };
        match progress {
            Progress::Done(moves, _) => {
                return write_moves(out, at, number, all_rows, all_values, &lengths[..moves]);
            }
            Progress::Moves(moves, _) => {
                at = write_moves(out, at, number, all_rows, all_values, &lengths[..moves]);
                number += moves;
            }
        }
        cursor = walk.next;
    }
}

// Writes the lines of the moves, counted from 1, and answers the place behind them.
fn write_walk(
    tables: &Tables<'_>,
    index: &Index<'_, '_>,
    order: &[usize],
    first: CycleWindowCursor,
    out: &mut [u8],
    from: usize,
) -> usize
    requires indexed { IsIndexed tables.now index.now }
    requires order_len_bound { (length order.now ≤ 128) × Fitting rematching (length order.now) first }
    requires room { Room (moves_ahead (of_tables board tables.now) (roster_in tables.now.shape.rows index.now.records.now) order.now first) from out.old }
    ensures { Wrote out.old from (moves_from 1 (moves_ahead (the_board tables.now) (the_roster tables.now index.now) order.now first)) out.new result }
{
    let mut all_rows = outputs::scratch(0);
    let mut all_values = outputs::scratch(0);
    let mut lengths = outputs::scratch(0);
    write_walks(
        tables,
        index,
        order,
        first,
        &mut all_rows,
        &mut all_values,
        &mut lengths,
        out,
        from,
    )
}

// Writes the whole listing of the windows of an order, at most four rows long, from the front of the
// output, and answers how many bytes it has. 102,423 are room for any.
pub fn write_listing(
    tables: &Tables<'_>,
    index: &Index<'_, '_>,
    order: &[usize],
    out: &mut [u8],
) -> usize
    requires indexed { IsIndexed tables.now index.now }
    requires order_len_bound { length order.now ≤ 128 }
    requires bounded { Bounded (of_tables board tables.now) }
    requires in_bounds { 102423 ≤ length out.old }
    ensures { Wrote out.old 0 (listing_text (moves_ahead (the_board tables.now) (the_roster tables.now index.now) order.now (first_cursor rematching (length order.now) 4))) out.new result }
{
    let Ok(first) = new_cursor(order.len(), 4) else {
        return 0;
    };
    let from = write_header(out);
    write_walk(tables, index, order, first, out, from)
}
