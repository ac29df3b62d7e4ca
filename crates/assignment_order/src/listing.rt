// The order of the rows that hold a value, for anyone who lends slices.
ghost use Rattle.std.specs.Prelude.{◌≡◌, ◌≤◌, length};
ghost use Rattle.assignment_tables.specs.Tables.{the_board, the_ranks};
ghost use Rattle.assignment_index.specs.Index.{the_roster, of_lent};
ghost use Rattle.assignment_state.specs.Admission.{Ready, IsReady};
ghost use Rattle.assignment_order.specs.Ordered.{leaves, ordering, Filled};

use crate::assigned;
use assignment_index::Index;
use assignment_state::admit;
use assignment_tables::{Shape, Tables};
use refusals::Refusal;

// Writes the order: how many rows there are.
pub fn order_rows(
    tables: &Tables<'_>,
    index: &Index<'_, '_>,
    offset: usize,
    out_rows: &mut [usize],
) -> usize
    requires ready { IsReady tables.now index.now }
    requires rows_in_bounds { tables.now.shape.rows ≤ length out_rows.old }
    ensures { Filled (the_board tables.now) (the_ranks tables.now) (the_roster tables.now index.now) offset out_rows.old out_rows.new result }
{
    let mut sorted = outputs::scratch(0);
    let n = assigned::sorted_rows(tables, index.records, &mut sorted);
    rotation::copy_rotated(&sorted[..n], offset, out_rows);
    n
}

pub fn assigned_entities_by_position(
    tables: &Tables<'_>,
    index: &Index<'_, '_>,
    offset: usize,
    out_rows: &mut [usize],
) -> Result<usize, Refusal>
    ensures { leaves result out_rows.new ≡ of_lent ordering tables.now index.now offset out_rows.old }
{
    admit::admit(tables, index, true)?;
    let rows_room = out_rows.len();
    if rows_room < tables.shape.rows {
        return Err(Refusal::Room);
    }
    Ok(order_rows(tables, index, offset, out_rows))
}
