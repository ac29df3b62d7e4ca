// A list tested and applied as one act. docs/RULES.md, 3.11.

#![tactic(auto)]

ghost use Rattle.std.specs.Prelude.{◌≡◌, length};
ghost use Rattle.assignment_index.specs.Index.{Indexed};
ghost use Rattle.applied_lists.specs.Applying.{leaves, applied, applying};
ghost use Rattle.assignment_tables.specs.Tables.{of_ranked, of_tables};

use assignment_index::Index;
use assignment_overlay::test;
use assignment_refresh::many;
use assignment_state::admit;
use assignment_tables::{Shape, Tables};
use refusals::Refusal;

// Applies the list to slices that were admitted, if it passes the final test.
pub fn apply_list(
    tables: &Tables<'_>,
    records: &mut [usize],
    members: &mut [usize],
    list_rows: &[usize],
    list_values: &[usize],
) -> Result<bool, Refusal>
    requires indexed { of_tables Indexed tables.now records.old members.old }
    requires list_rows_len { length list_rows.now ≡ length list_values.now }
    ensures { leaves result records.new members.new
        ≡ of_tables applied tables.now records.old members.old list_rows.now list_values.now }
{
    if !test::final_test(tables, &Index { records, members }, list_rows, list_values) {
        return Ok(false);
    }
    many::refresh(tables, records, members, list_rows, list_values);
    Ok(true)
}

// The same for anyone who lends slices: a list that passes is applied, one that fails leaves every cell
// as it was and is answered no.
pub fn assignment_apply_edits(
    tables: &Tables<'_>,
    records: &mut [usize],
    members: &mut [usize],
    list_rows: &[usize],
    list_values: &[usize],
) -> Result<bool, Refusal>
    ensures { leaves result records.new members.new
        ≡ of_ranked applying tables.now records.old members.old list_rows.now list_values.now }
{
    let own = list_rows.len() == list_values.len();
    admit::admit(tables, &Index { records, members }, own)?;
    apply_list(tables, records, members, list_rows, list_values)
}
