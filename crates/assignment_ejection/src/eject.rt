// The rows of a window lifted out and put back, for anyone who lends slices.
ghost use Rattle.std.specs.Prelude.{◌≡◌, ◌≤◌, length, Ok};
ghost use Rattle.assignment_tables.specs.Tables.{the_board};
ghost use Rattle.assignment_index.specs.Index.{the_roster, of_index, of_lent};
ghost use Rattle.ejection_turns.specs.Turns.{Returning};
ghost use Rattle.assignment_ejection.specs.Ejected.{leaves, ejected, ejecting};

use assignment_index::Index;
use assignment_state::admit;
use assignment_tables::{EMPTY, Shape, Tables};
use refusals::Refusal;

// Writes the edits: how many there are, or that there are none to give.
pub fn eject(
    tables: &Tables<'_>,
    index: &Index<'_, '_>,
    window: &[usize],
    attempt: usize,
    limit: Option<usize>,
    out_rows: &mut [usize],
    out_values: &mut [usize],
) -> Option<usize>
    requires returning { of_index Returning tables.now index.now }
    requires window_len_bound { (length window.now ≤ 128) × (length window.now ≤ length out_rows.old) × (length window.now ≤ length out_values.old) }
    ensures { leaves (Ok result) out_rows.new out_values.new
        ≡ ejected (the_board tables.now) (the_roster tables.now index.now) limit attempt window.now out_rows.old out_values.old }
{
    let n = window.len();
    let mut cells = outputs::scratch(EMPTY);
    if !ejection_turns::put_all_back(tables, index, window, &mut cells[..n], attempt, limit) {
        return None;
    }
    let rows = tables.shape.rows;
    Some(changed_edits::write_changed(
        rows,
        index.records,
        window,
        &cells[..n],
        out_rows,
        out_values,
    ))
}

pub fn ejection_reinsert_edits(
    tables: &Tables<'_>,
    index: &Index<'_, '_>,
    window: &[usize],
    attempt: usize,
    limit: Option<usize>,
    out_rows: &mut [usize],
    out_values: &mut [usize],
) -> Result<Option<usize>, Refusal>
    ensures { leaves result out_rows.new out_values.new
        ≡ of_lent ejecting tables.now index.now window.now attempt limit out_rows.old out_values.old }
{
    let own = window.len() <= 128;
    admit::admit(tables, index, own)?;
    let room = (window.len() <= out_rows.len()) & (window.len() <= out_values.len());
    if !room {
        return Err(Refusal::Room);
    }
    Ok(eject(tables, index, window, attempt, limit, out_rows, out_values))
}
