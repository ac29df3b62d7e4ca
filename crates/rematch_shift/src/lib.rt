// The edits that shifting the values round a window makes. docs/RULES.md, 8.4.

#![tactic(auto)]

ghost use Rattle.std.specs.Prelude.{◌≡◌, ◌≤◌, length};
ghost use Rattle.basics.specs.Tests.{all};
ghost use Rattle.outputs.specs.Outputs.{fronted, InFront};
ghost use Rattle.assignment_index.specs.Index.{roster_in};
ghost use Rattle.rematch_shift.specs.Shift.{shifted_values, not_empty, shift_edits};

use assignment_index::columns;
use assignment_tables::EMPTY;

// Writes the values that the rows of the window get to the front.
fn write_shifted(rows: usize, records: &[usize], window: &[usize], shift: usize, out: &mut [usize])
    requires rows_in_bounds { rows ≤ length records.now }
    requires window_len_bound { (length window.now ≤ 128) × (length window.now ≤ length out.old) }
    ensures { out.new ≡ fronted (shifted_values (roster_in rows records.now) window.now shift) out.old }
{
    for i in 0..window.len() {
        let source = rotation::place_round(shift, i, window.len());
        out[i] = columns::value_of(rows, records, window[source]);
    }
}

// None of them is empty.
fn none_empty(values: &[usize]) -> bool
    ensures { result ≡ all not_empty values.now }
{
    let empty = EMPTY;
    for &value in values {
        if value == empty {
            return false;
        }
    }
    true
}

// Writes the edits of a shift to the fronts of two slices: how many there are, none where a row would get no value.
pub fn shift_edits(
    rows: usize,
    records: &[usize],
    window: &[usize],
    shift: usize,
    list_rows: &mut [usize],
    list_values: &mut [usize],
) -> usize
    requires rows_in_bounds { rows ≤ length records.now }
    requires window_len_bound { (length window.now ≤ 128) × (length window.now ≤ length list_rows.old) × (length window.now ≤ length list_values.old) }
    ensures { InFront (shift_edits (roster_in rows records.now) window.now shift) list_rows.old list_values.old list_rows.new list_values.new result }
{
    let n = window.len();
    let mut values = outputs::scratch(EMPTY);
    write_shifted(rows, records, window, shift, &mut values);
    if !none_empty(&values[..n]) {
        return 0;
    }
    changed_edits::write_changed(rows, records, window, &values[..n], list_rows, list_values)
}
