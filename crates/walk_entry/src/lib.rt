// A walk over the windows of an order in one call, for anyone who lends slices. docs/RULES.md, 8.8.

#![tactic(auto)]

ghost use Rattle.std.specs.Prelude.{◌≡◌};
ghost use Rattle.walk_answers.specs.Answers.{refused_walk};
ghost use Rattle.assignment_walk.specs.Runs.{leaves, walking, roomy};
ghost use Rattle.assignment_index.specs.Index.{of_lent};

use assignment_index::Index;
use assignment_state::admit;
use assignment_tables::{Shape, Tables};
use assignment_walk::onward::walk_on;
use refusals::Refusal;
use walk_answers::Walk;
use window_kinds::cursor::cursor_fits;
use window_kinds::{CycleWindowCursor, REMATCH_LEAST, REMATCH_TRIES};

// A refusal: the cursor comes back as it was.
fn refuse(cursor: CycleWindowCursor, refusal: Refusal) -> Walk
    ensures { result ≡ refused_walk cursor refusal }
{
    Walk {
        next: cursor,
        answer: Err(refusal),
    }
}

// Each output has room for as many as there are rows.
fn has_room(rows: usize, out_rows: &[usize], out_values: &[usize], out_lengths: &[usize]) -> bool
    ensures { result ≡ roomy rows out_rows.now out_values.now out_lengths.now }
{
    (rows <= out_rows.len()) & (rows <= out_values.len()) & (rows <= out_lengths.len())
}

// The moves over the windows of the order, from the cursor on, as many as there is room for.
pub fn walk_augmenting_rematch(
    tables: &Tables<'_>,
    index: &Index<'_, '_>,
    order: &[usize],
    cursor: CycleWindowCursor,
    out_rows: &mut [usize],
    out_values: &mut [usize],
    out_lengths: &mut [usize],
) -> Walk
    ensures { leaves result out_rows.new out_values.new out_lengths.new
        ≡ of_lent walking tables.now index.now order.now cursor out_rows.old out_values.old out_lengths.old }
{
    let own = order.len() <= 128;
    if let Err(refusal) = admit::admit(tables, index, own) {
        return refuse(cursor, refusal);
    }
    if !cursor_fits(order.len(), REMATCH_LEAST, REMATCH_TRIES, cursor) {
        return refuse(cursor, Refusal::Cursor);
    }
    if !has_room(tables.shape.rows, out_rows, out_values, out_lengths) {
        return refuse(cursor, Refusal::Room);
    }
    walk_on(
        tables,
        index,
        order,
        cursor,
        out_rows,
        out_values,
        out_lengths,
    )
}
