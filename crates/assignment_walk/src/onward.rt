// The walk on slices that were admitted, whatever the ranks.
ghost use Rattle.std.specs.Prelude.{◌≡◌, ◌≤◌, min, length};
ghost use Rattle.outputs.specs.Giving.{Roomy};
ghost use Rattle.assignment_tables.specs.Tables.{the_board};
ghost use Rattle.assignment_index.specs.Index.{Indexed, the_roster, IsIndexed};
ghost use Rattle.window_kinds.specs.Kinds.{rematching, Fitting};
ghost use Rattle.assignment_cycle.specs.Windows.{rematch_step};
ghost use Rattle.assignment_walk.specs.Runs.{run, leaves, resumed};

use crate::place::copy_at;
use assignment_cycle::rematch::next_move;
use assignment_index::Index;
use assignment_tables::{Shape, Tables};
use walk_answers::{Walk, finish, move_fits, stop};
use window_kinds::CycleWindowCursor;

fn lesser(a: usize, b: usize) -> usize
    ensures { result ≡ min a b }
{
    if a < b {
        return a;
    }
    b
}

// Writes the moves from the cursor on. The rows and values are room for one move at a time.
fn walk_within(
    tables: &Tables<'_>,
    index: &Index<'_, '_>,
    order: &[usize],
    first: CycleWindowCursor,
    rows: &mut [usize],
    values: &mut [usize],
    out_rows: &mut [usize],
    out_values: &mut [usize],
    out_lengths: &mut [usize],
) -> Walk
    requires indexed { IsIndexed tables.now index.now }
    requires order_len_bound { (length order.now ≤ 128) × Fitting rematching (length order.now) first }
    requires roomy { Roomy tables.now.shape.rows rows.old values.old }
    ensures { leaves result out_rows.new out_values.new out_lengths.new
        ≡ resumed 0 0 (run (rematch_step (the_board tables.now) (the_roster tables.now index.now) order.now) (length out_lengths.old)
        (min (length out_rows.old) (length out_values.old)) first) out_rows.old out_values.old out_lengths.old }
{
    let room = lesser(out_rows.len(), out_values.len());
    let mut cursor = first;
    let mut moves = 0;
    let mut edits = 0;
    loop {
        let step = next_move(tables, index, order, cursor, rows, values);
        let answer = step.answer;
        let found = match answer {
            Err(_) => return stop(cursor, moves, edits),
            Ok(found) => found,
        };
        match found {
            None => return finish(step.next, moves, edits),
            Some(count) => {
                if !move_fits(out_lengths.len(), moves, room, edits, count) {
                    return stop(cursor, moves, edits);
                }
                copy_at(&rows[..count], out_rows, edits);
                copy_at(&values[..count], out_values, edits);
                out_lengths[moves] = count;
                edits += count;
            }
        }
        moves += 1;
        cursor = step.next;
    }
}

// Writes the moves from the cursor on, one behind the other, and how many edits each has, as long as there is room.
pub fn walk_on(
    tables: &Tables<'_>,
    index: &Index<'_, '_>,
    order: &[usize],
    first: CycleWindowCursor,
    out_rows: &mut [usize],
    out_values: &mut [usize],
    out_lengths: &mut [usize],
) -> Walk
    requires indexed { IsIndexed tables.now index.now }
    requires order_len_bound { (length order.now ≤ 128) × Fitting rematching (length order.now) first }
    ensures { leaves result out_rows.new out_values.new out_lengths.new
        ≡ resumed 0 0 (run (rematch_step (the_board tables.now) (the_roster tables.now index.now) order.now) (length out_lengths.old)
        (min (length out_rows.old) (length out_values.old)) first) out_rows.old out_values.old out_lengths.old }
{
    let mut rows = outputs::scratch(0);
    let mut values = outputs::scratch(0);
    walk_within(
        tables,
        index,
        order,
        first,
        &mut rows,
        &mut values,
        out_rows,
        out_values,
        out_lengths,
    )
}
