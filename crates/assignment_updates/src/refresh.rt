// The index built from a roster, and advanced by a list: refused as a whole, or done as a whole.
ghost use Rattle.std.specs.Prelude.{◌≡◌, ◌<◌, length};
ghost use Rattle.assignment_updates.specs.Refresh.{entry_refusal, list_refusal, refreshed, built};
ghost use Rattle.assignment_tables.specs.Tables.{of_ranked};

use assignment_index::Index;
use assignment_refresh::{build, many};
use assignment_state::admit;
use assignment_tables::{Shape, Tables, edits};
use refusals::Refusal;
use table_refusals::tables_refusal;

// The refusal of one entry, if there is one.
fn entry_refusal(
    shape: Shape,
    list_rows: &[usize],
    list_values: &[usize],
    i: usize,
) -> Result<(), Refusal>
    requires { (i < length list_rows.now) × (length list_rows.now ≡ length list_values.now) }
    ensures { result ≡ entry_refusal shape list_rows.now list_values.now i }
{
    if list_rows[i] >= shape.rows {
        return Err(Refusal::RowOutOfRange);
    }
    if !edits::first_named(list_rows, i) {
        return Err(Refusal::RowNamedTwice);
    }
    if admit::is_holdable(shape, list_values[i]) {
        return Ok(());
    }
    Err(Refusal::HeldValue)
}

// The refusal of the first bad entry, if there is one.
fn list_refusal(shape: Shape, list_rows: &[usize], list_values: &[usize]) -> Result<(), Refusal>
    requires { length list_rows.now ≡ length list_values.now }
    ensures { result ≡ list_refusal shape list_rows.now list_values.now }
{
    for i in 0..list_rows.len() {
        entry_refusal(shape, list_rows, list_values, i)?;
    }
    Ok(())
}

// For loading a roster: gives every listed row the value beside it. Every named row is taken out before
// any is put in; neither legality nor feasibility is asked.
pub fn refresh_rows(
    tables: &Tables<'_>,
    records: &mut [usize],
    members: &mut [usize],
    list_rows: &[usize],
    list_values: &[usize],
) -> Result<(), Refusal>
    ensures value { result ≡ (of_ranked refreshed tables.now records.old members.old list_rows.now list_values.now).answer }
    ensures records_value { records.new ≡ (of_ranked refreshed tables.now records.old members.old list_rows.now list_values.now).records }
    ensures members_value { members.new ≡ (of_ranked refreshed tables.now records.old members.old list_rows.now list_values.now).members }
{
    let own = list_rows.len() == list_values.len();
    admit::admit(tables, &Index { records, members }, own)?;
    list_refusal(tables.shape, list_rows, list_values)?;
    many::refresh(tables, records, members, list_rows, list_values);
    Ok(())
}

// Writes the index of a roster, whatever the slices held.
pub fn build_index(
    tables: &Tables<'_>,
    roster: &[usize],
    records: &mut [usize],
    members: &mut [usize],
) -> Result<(), Refusal>
    ensures value { result ≡ (of_ranked built tables.now roster.now records.old members.old).answer }
    ensures records_value { records.new ≡ (of_ranked built tables.now roster.now records.old members.old).records }
    ensures members_value { members.new ≡ (of_ranked built tables.now roster.now records.old members.old).members }
{
    let lengths = (roster.len() == tables.shape.rows)
        & admit::index_lengths(tables.shape, &Index { records, members });
    tables_refusal(tables, lengths)?;
    if !admit::all_holdable(tables.shape, roster) {
        return Err(Refusal::HeldValue);
    }
    build::build(tables, roster, records, members);
    Ok(())
}
