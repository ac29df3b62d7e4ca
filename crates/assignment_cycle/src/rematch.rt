// A step of the cursor: to the next move, or to the end.
ghost use Rattle.std.specs.Prelude.{◌≡◌, ◌≤◌, length};
ghost use Rattle.outputs.specs.Giving.{Roomy};
ghost use Rattle.assignment_tables.specs.Tables.{the_board};
ghost use Rattle.assignment_index.specs.Index.{Indexed, the_roster, IsIndexed, of_lent};
ghost use Rattle.window_kinds.specs.Kinds.{rematching, Fitting};
ghost use Rattle.window_kinds.specs.Stepping.{leaves, answering};
ghost use Rattle.assignment_cycle.specs.Windows.{rematch_step};
ghost use Rattle.assignment_cycle.specs.Stepping.{stepping};

use crate::moves;
use assignment_index::Index;
use assignment_state::admit;
use assignment_tables::{Shape, Tables};
use refusals::Refusal;
use window_kinds::{CycleWindowCursor, REMATCH_LEAST, REMATCH_TRIES, Step, cursor};

// The step on slices that were admitted, whatever the ranks: who walks far asks for admission once.
pub fn next_move(
    tables: &Tables<'_>,
    index: &Index<'_, '_>,
    order: &[usize],
    cursor: CycleWindowCursor,
    out_rows: &mut [usize],
    out_values: &mut [usize],
) -> Step
    requires indexed { IsIndexed tables.now index.now }
    requires order_len_bound { (length order.now ≤ 128) × Fitting rematching (length order.now) cursor }
    requires roomy { Roomy tables.now.shape.rows out_rows.old out_values.old }
    ensures { leaves result out_rows.new out_values.new
        ≡ answering (rematch_step (the_board tables.now) (the_roster tables.now index.now) order.now cursor) out_rows.old out_values.old }
{
    let mut at = cursor;
    while at.start < order.len() {
        let edits = moves::move_here(tables, index, order, at, out_rows, out_values);
        at = cursor::advance(order.len(), REMATCH_LEAST, REMATCH_TRIES, at);
        if edits != 0 {
            return Step {
                next: at,
                answer: Ok(Some(edits)),
            };
        }
    }
    Step {
        next: at,
        answer: Ok(None),
    }
}

// The next move over the windows of the order, from the cursor on.
pub fn next_augmenting_rematch(
    tables: &Tables<'_>,
    index: &Index<'_, '_>,
    order: &[usize],
    cursor: CycleWindowCursor,
    out_rows: &mut [usize],
    out_values: &mut [usize],
) -> Step
    ensures { leaves result out_rows.new out_values.new
        ≡ of_lent stepping tables.now index.now order.now cursor out_rows.old out_values.old }
{
    let own = order.len() <= 128;
    if let Err(refusal) = admit::admit(tables, index, own) {
        return cursor::refuse(cursor, refusal);
    }
    if !cursor::cursor_fits(order.len(), REMATCH_LEAST, REMATCH_TRIES, cursor) {
        return cursor::refuse(cursor, Refusal::Cursor);
    }
    if out_rows.len() < tables.shape.rows {
        return cursor::refuse(cursor, Refusal::Room);
    }
    if out_values.len() < tables.shape.rows {
        return cursor::refuse(cursor, Refusal::Room);
    }
    next_move(tables, index, order, cursor, out_rows, out_values)
}
