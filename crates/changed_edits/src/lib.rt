// The edits of a list that change what their row holds, in the fronts of two lent slices.
// docs/RULES.md, 8.4 and 9.3.

#![tactic(auto)]

ghost use Rattle.std.specs.Prelude.{◌≡◌, ◌+◌, ◌≤◌, length};
ghost use Rattle.std.proofs.lemmas.List.Edits.{sets};
ghost use Rattle.outputs.specs.Outputs.{fronted, InFront};
ghost use Rattle.assignment_index.specs.Index.{roster_in};
ghost use Rattle.basics.specs.Edits.{edits};
ghost use Rattle.changed_edits.specs.Changed.{changed};
ghost use Rattle.changed_edits.specs.Kept.{kept_one, kept_of};

use assignment_index::columns;

// Writes the number at the place, if the value is another than the row holds: the next place.
fn keep(
    rows: usize,
    records: &[usize],
    row: usize,
    value: usize,
    number: usize,
    out: &mut [usize],
    at: usize,
) -> usize
    requires rows_in_bounds { rows ≤ length records.now }
    requires number_in_bounds { at + length (kept_one (roster_in rows records.now) row value number) ≤ length out.old }
    ensures { (result ≡ at + length (kept_one (roster_in rows records.now) row value number)) × (out.new ≡ sets out.old at (kept_one (roster_in rows records.now) row value number)) }
{
    if value == columns::value_of(rows, records, row) {
        return at;
    }
    out[at] = number;
    at + 1
}

// Of the numbers beside the edits, writes those to the front whose edit changes its row: how many there are.
fn keep_changed(
    rows: usize,
    records: &[usize],
    list_rows: &[usize],
    list_values: &[usize],
    numbers: &[usize],
    out: &mut [usize],
) -> usize
    requires rows_in_bounds { rows ≤ length records.now }
    requires list_rows_len { (length list_rows.now ≡ length list_values.now) × (length list_rows.now ≡ length numbers.now) × (length list_rows.now ≤ length out.old) }
    ensures { (result ≡ length (kept_of (roster_in rows records.now) list_rows.now list_values.now numbers.now))
        × (out.new ≡ fronted (kept_of (roster_in rows records.now) list_rows.now list_values.now numbers.now) out.old) }
{
    let mut at = 0;
    for i in 0..list_rows.len() {
        at = keep(
            rows,
            records,
            list_rows[i],
            list_values[i],
            numbers[i],
            out,
            at,
        );
    }
    at
}

// Writes the rows and the values of the edits that change something: how many there are.
pub fn write_changed(
    rows: usize,
    records: &[usize],
    list_rows: &[usize],
    list_values: &[usize],
    out_rows: &mut [usize],
    out_values: &mut [usize],
) -> usize
    requires rows_in_bounds { rows ≤ length records.now }
    requires list_rows_len { (length list_rows.now ≡ length list_values.now) × (length list_rows.now ≤ length out_rows.old) × (length list_rows.now ≤ length out_values.old) }
    ensures { InFront (changed (roster_in rows records.now) (edits list_rows.now list_values.now)) out_rows.old out_values.old out_rows.new out_values.new result }
{
    let count = keep_changed(rows, records, list_rows, list_values, list_rows, out_rows);
    keep_changed(
        rows,
        records,
        list_rows,
        list_values,
        list_values,
        out_values,
    );
    count
}
