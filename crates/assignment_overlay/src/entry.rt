// The two tests as entries: any input, refused or answered.
ghost use Rattle.std.specs.Prelude.{◌≡◌};
ghost use Rattle.assignment_overlay.specs.Verdicts.{final_verdict, reinsert_verdict};
ghost use Rattle.assignment_index.specs.Index.{of_lent};

use crate::test;
use assignment_index::Index;
use assignment_state::admit;
use assignment_tables::{Shape, Tables};
use refusals::Refusal;

// Whether the list passes the final test.
pub fn assignment_feasible_after_edits(
    tables: &Tables<'_>,
    index: &Index<'_, '_>,
    list_rows: &[usize],
    list_values: &[usize],
) -> Result<bool, Refusal>
    ensures { result ≡ of_lent final_verdict tables.now index.now list_rows.now list_values.now }
{
    let own = list_rows.len() == list_values.len();
    admit::admit(tables, index, own)?;
    Ok(test::final_test(tables, index, list_rows, list_values))
}

// Whether the named row may take the value after the list.
pub fn reinsert_value_allowed(
    tables: &Tables<'_>,
    index: &Index<'_, '_>,
    list_rows: &[usize],
    list_values: &[usize],
    row: usize,
    value: usize,
) -> Result<bool, Refusal>
    ensures { result ≡ of_lent reinsert_verdict tables.now index.now list_rows.now list_values.now row value }
{
    let own = list_rows.len() == list_values.len();
    admit::admit(tables, index, own)?;
    Ok(test::reinsert_test(tables, index, list_rows, list_values, row, value))
}
