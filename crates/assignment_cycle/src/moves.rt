// The move that a variant of a window is, if it is one.
ghost use Rattle.std.specs.Prelude.{◌≡◌, ◌<◌, ◌≤◌, length};
ghost use Rattle.outputs.specs.Giving.{Roomy, GivenBack};
ghost use Rattle.assignment_tables.specs.Tables.{the_board};
ghost use Rattle.assignment_index.specs.Index.{Indexed, the_roster, IsIndexed};
ghost use Rattle.window_kinds.specs.Kinds.{rematching, Walking, move_here};
ghost use Rattle.assignment_cycle.specs.Windows.{move_of, move_at};

use assignment_index::Index;
use assignment_tables::{Shape, Tables};
use given_lists::give_back;
use window_kinds::{CycleWindowCursor, REMATCH_TRIES, cursor};

// The move that shifting the window's values makes: how many edits it has, or 0.
fn window_move(
    tables: &Tables<'_>,
    index: &Index<'_, '_>,
    window: &[usize],
    shift: usize,
    out_rows: &mut [usize],
    out_values: &mut [usize],
) -> usize
    requires indexed { IsIndexed tables.now index.now }
    requires window_len_bound { length window.now ≤ 128 }
    requires roomy { Roomy tables.now.shape.rows out_rows.old out_values.old }
    ensures { GivenBack (move_of (the_board tables.now) (the_roster tables.now index.now) window.now shift) out_rows.old out_values.old out_rows.new out_values.new result }
{
    let rows = tables.shape.rows;
    let mut list_rows = outputs::scratch(0);
    let mut list_values = outputs::scratch(0);
    let n = rematch_shift::shift_edits(
        rows,
        index.records,
        window,
        shift,
        &mut list_rows,
        &mut list_values,
    );
    if n < 2 {
        return 0;
    }
    give_back(
        tables,
        index,
        &list_rows[..n],
        &list_values[..n],
        out_rows,
        out_values,
    )
}

// The move at the cursor: how many edits it has, or 0.
pub fn move_here(
    tables: &Tables<'_>,
    index: &Index<'_, '_>,
    order: &[usize],
    cursor: CycleWindowCursor,
    out_rows: &mut [usize],
    out_values: &mut [usize],
) -> usize
    requires indexed { IsIndexed tables.now index.now }
    requires walking { Walking rematching (length order.now) cursor }
    requires roomy { Roomy tables.now.shape.rows out_rows.old out_values.old }
    ensures { GivenBack (move_here rematching (move_at (the_board tables.now) (the_roster tables.now index.now) order.now) (length order.now) cursor)
        out_rows.old out_values.old out_rows.new out_values.new result }
{
    if !cursor::has_window(order.len(), cursor) {
        return 0;
    }
    if cursor.variant < REMATCH_TRIES {
        let start = cursor.start;
        let end = start + cursor.length;
        return window_move(
            tables,
            index,
            &order[start..end],
            cursor::shift_of(cursor),
            out_rows,
            out_values,
        );
    }
    0
}
