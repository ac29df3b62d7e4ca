// A step of the cursor: to the next move, or to the end.
ghost use Rattle.std.specs.Prelude.{◌≡◌, ◌≤◌, length};
ghost use Rattle.outputs.specs.Giving.{Roomy};
ghost use Rattle.assignment_tables.specs.Tables.{the_board};
ghost use Rattle.assignment_index.specs.Index.{the_roster, of_index, of_lent};
ghost use Rattle.window_kinds.specs.Kinds.{reinserting, Fitting};
ghost use Rattle.window_kinds.specs.Stepping.{leaves, answering};
ghost use Rattle.ejection_turns.specs.Turns.{Returning};
ghost use Rattle.ejection_cycle.specs.Reinserting.{reinsert_step, reinsert_stepping};

use crate::tries;
use assignment_index::Index;
use assignment_state::admit;
use assignment_tables::{Shape, Tables};
use refusals::Refusal;
use window_kinds::{CycleWindowCursor, EJECTION_LEAST, Step, cursor};

// The step on slices that were admitted.
fn next_move(
    tables: &Tables<'_>,
    index: &Index<'_, '_>,
    order: &[usize],
    cursor: CycleWindowCursor,
    limit: Option<usize>,
    out_rows: &mut [usize],
    out_values: &mut [usize],
) -> Step
    requires returning { of_index Returning tables.now index.now }
    requires order_len_bound { (length order.now ≤ 128) × Fitting reinserting (length order.now) cursor }
    requires roomy { Roomy tables.now.shape.rows out_rows.old out_values.old }
    ensures { leaves result out_rows.new out_values.new
        ≡ answering (reinsert_step (the_board tables.now) (the_roster tables.now index.now) limit order.now cursor) out_rows.old out_values.old }
{
    let mut at = cursor;
    while at.start < order.len() {
        let edits = tries::move_here(tables, index, order, at, limit, out_rows, out_values);
        at = cursor::advance(order.len(), EJECTION_LEAST, at.length, at);
        if edits != 0 {
            return Step {
                next: at,
                answer: Ok(Some(edits)),
            };
        }
    }
    Step {
        next: at,
        answer: Ok(None),
    }
}

// The next move that lifting the rows of a window out and putting them back makes, over the windows of
// the order, from the cursor on.
pub fn next_ejection_reinsert(
    tables: &Tables<'_>,
    index: &Index<'_, '_>,
    order: &[usize],
    cursor: CycleWindowCursor,
    limit: Option<usize>,
    out_rows: &mut [usize],
    out_values: &mut [usize],
) -> Step
    ensures { leaves result out_rows.new out_values.new
        ≡ of_lent reinsert_stepping tables.now index.now order.now limit cursor out_rows.old out_values.old }
{
    let own = order.len() <= 128;
    if let Err(refusal) = admit::admit(tables, index, own) {
        return cursor::refuse(cursor, refusal);
    }
    if !cursor::cursor_fits(order.len(), EJECTION_LEAST, cursor.length, cursor) {
        return cursor::refuse(cursor, Refusal::Cursor);
    }
    if out_rows.len() < tables.shape.rows {
        return cursor::refuse(cursor, Refusal::Room);
    }
    if out_values.len() < tables.shape.rows {
        return cursor::refuse(cursor, Refusal::Room);
    }
    next_move(tables, index, order, cursor, limit, out_rows, out_values)
}
