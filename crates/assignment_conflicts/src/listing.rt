// The conflicts of a roster, for anyone who lends slices.
ghost use Rattle.std.specs.Prelude.{◌≡◌, ◌≤◌, length};
ghost use Rattle.assignment_tables.specs.Tables.{the_board, the_ranks};
ghost use Rattle.assignment_index.specs.Index.{the_roster, of_lent};
ghost use Rattle.assignment_state.specs.Admission.{Ready, IsReady};
ghost use Rattle.assignment_conflicts.specs.Listing.{leaves, listing, Filled};

use crate::gather;
use assignment_index::Index;
use assignment_state::admit;
use assignment_tables::{Shape, Tables};
use conflict_leaders::sorted_leaders;
use refusals::Refusal;

// Lists the holders of every conflict and their keys: how many there are.
pub fn list_conflicts(
    tables: &Tables<'_>,
    index: &Index<'_, '_>,
    out_keys: &mut [usize],
    out_rows: &mut [usize],
) -> usize
    requires ready { IsReady tables.now index.now }
    requires rows_in_bounds { (tables.now.shape.rows ≤ length out_keys.old) × (tables.now.shape.rows ≤ length out_rows.old) }
    ensures { Filled (the_board tables.now) (the_ranks tables.now) (the_roster tables.now index.now) out_keys.old out_rows.old out_keys.new out_rows.new result }
{
    let rows = tables.shape.rows;
    // The first row of each key stands where the keys will.
    let keys_shared = sorted_leaders(tables, index, out_keys);
    let n = gather::gather(tables, index, &out_keys[..keys_shared], out_rows);
    gather::write_keys(rows, index.records, &out_rows[..n], out_keys);
    n
}

pub fn capacity_conflicts(
    tables: &Tables<'_>,
    index: &Index<'_, '_>,
    out_keys: &mut [usize],
    out_rows: &mut [usize],
) -> Result<usize, Refusal>
    ensures { leaves result out_keys.new out_rows.new ≡ of_lent listing tables.now index.now out_keys.old out_rows.old }
{
    admit::admit(tables, index, true)?;
    if out_keys.len() < tables.shape.rows {
        return Err(Refusal::Room);
    }
    let rows_room = out_rows.len();
    if rows_room < tables.shape.rows {
        return Err(Refusal::Room);
    }
    Ok(list_conflicts(tables, index, out_keys, out_rows))
}
