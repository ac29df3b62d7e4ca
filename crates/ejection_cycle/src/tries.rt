// The move that an attempt at a window makes, if it makes one.
ghost use Rattle.std.specs.Prelude.{◌≡◌, ◌≤◌, length};
ghost use Rattle.outputs.specs.Giving.{Roomy, GivenBack};
ghost use Rattle.assignment_tables.specs.Tables.{the_board};
ghost use Rattle.assignment_index.specs.Index.{the_roster, of_index};
ghost use Rattle.window_kinds.specs.Kinds.{reinserting, Walking, move_here};
ghost use Rattle.ejection_turns.specs.Turns.{Returning};
ghost use Rattle.ejection_cycle.specs.Reinserting.{reinsert_move, reinsert_at};

use assignment_ejection::eject::eject;
use assignment_index::Index;
use assignment_tables::{Shape, Tables};
use given_lists::give_edited;
use window_kinds::{CycleWindowCursor, cursor};

// The move that the attempt at the window makes: how many edits it has, or 0.
fn window_move(
    tables: &Tables<'_>,
    index: &Index<'_, '_>,
    window: &[usize],
    attempt: usize,
    limit: Option<usize>,
    out_rows: &mut [usize],
    out_values: &mut [usize],
) -> usize
    requires returning { of_index Returning tables.now index.now }
    requires window_len_bound { length window.now ≤ 128 }
    requires roomy { Roomy tables.now.shape.rows out_rows.old out_values.old }
    ensures { GivenBack (reinsert_move (the_board tables.now) (the_roster tables.now index.now) limit attempt window.now)
        out_rows.old out_values.old out_rows.new out_values.new result }
{
    let mut list_rows = outputs::scratch(0);
    let mut list_values = outputs::scratch(0);
    let ejection = eject(
        tables,
        index,
        window,
        attempt,
        limit,
        &mut list_rows,
        &mut list_values,
    );
    match ejection {
        None => 0,
        Some(n) => give_edited(
            tables,
            index,
            &list_rows[..n],
            &list_values[..n],
            out_rows,
            out_values,
        ),
    }
}

// The move at the cursor: how many edits it has, or 0.
pub fn move_here(
    tables: &Tables<'_>,
    index: &Index<'_, '_>,
    order: &[usize],
    cursor: CycleWindowCursor,
    limit: Option<usize>,
    out_rows: &mut [usize],
    out_values: &mut [usize],
) -> usize
    requires returning { of_index Returning tables.now index.now }
    requires walking { Walking reinserting (length order.now) cursor }
    requires roomy { Roomy tables.now.shape.rows out_rows.old out_values.old }
    ensures { GivenBack (move_here reinserting (reinsert_at (the_board tables.now) (the_roster tables.now index.now) limit order.now) (length order.now) cursor)
        out_rows.old out_values.old out_rows.new out_values.new result }
{
    if !cursor::has_window(order.len(), cursor) {
        return 0;
    }
    if cursor.variant < cursor.length {
        let start = cursor.start;
        let end = start + cursor.length;
        return window_move(
            tables,
            index,
            &order[start..end],
            cursor.variant,
            limit,
            out_rows,
            out_values,
        );
    }
    0
}
