// Who may use the lent slices: every entry that takes a roster asks here first.
ghost use Rattle.std.specs.Prelude.{◌≡◌, ◌≤◌, length};
ghost use Rattle.assignment_state.specs.Admission.{index_lengths, holdable, all_holdable, admission};
ghost use Rattle.assignment_index.specs.Index.{of_lent};

use assignment_index::Index;
use assignment_tables::{EMPTY, Shape, Tables};
use refusals::Refusal;
use table_refusals::tables_refusal;

// The index's two slices have their lengths.
pub fn index_lengths(shape: Shape, index: &Index<'_, '_>) -> bool
    ensures { result ≡ index_lengths shape index.now.records.now index.now.members.now }
{
    let rows = shape.rows;
    if 128 < rows {
        return false;
    }
    (index.records.len() == 5 * rows) & (index.members.len() == 3 * (rows + 1))
}

pub fn is_holdable(shape: Shape, value: usize) -> bool
    ensures { result ≡ holdable shape value }
{
    if value == EMPTY {
        return true;
    }
    value < shape.values
}

// Each of the values, one a row, may be held.
pub fn all_holdable(shape: Shape, values: &[usize]) -> bool
    requires { shape.rows ≤ length values.now }
    ensures { result ≡ all_holdable shape values.now }
{
    for &value in &values[..shape.rows] {
        if !is_holdable(shape, value) {
            return false;
        }
    }
    true
}

// The first refusal among 1, 2, 3 and 6 of docs/RULES.md, 11, if there is one; own_lengths says whether
// what else the entry was lent has its length.
pub fn admit(tables: &Tables<'_>, index: &Index<'_, '_>, own_lengths: bool) -> Result<(), Refusal>
    ensures { result ≡ of_lent admission tables.now index.now own_lengths }
{
    let lengths = own_lengths & index_lengths(tables.shape, index);
    tables_refusal(tables, lengths)?;
    if !all_holdable(tables.shape, index.records) {
        return Err(Refusal::HeldValue);
    }
    if index_check::is_index(tables, index) {
        return Ok(());
    }
    Err(Refusal::FalseIndex)
}
