// Duties as records: a header, and a line with row and day for each. docs/RULES.md, 13.

#![tactic(auto)]

ghost use Rattle.std.specs.Prelude.{◌≡◌, ◌≤◌, ◌+◌, ◌*◌, length};
ghost use Rattle.written_text.specs.Wrote.{Wrote};
ghost use Rattle.calendar_format.specs.Slices.{duty, paired};
ghost use Rattle.duty_records.specs.Records.{duty_line, duty_lines, duties_text};

use listing_text::pieces::{write_field, write_last};
use written_text::write_bytes;

// A duty's line. Two numbers below 2^64, a comma and the line's end are 43 bytes at most.
fn write_line(out: &mut [u8], at: usize, row: usize, day: usize) -> usize
    requires { at + 43 ≤ length out.old }
    ensures wrote { Wrote out.old at (duty_line (duty row day)) out.new result }
    ensures upper_bound { result ≤ at + 43 }
{
    let next = write_field(out, at, row);
    write_last(out, next, day)
}

// A line for each row and the day beside it.
fn write_lines(out: &mut [u8], at: usize, rows: &[usize], days: &[usize]) -> usize
    requires rows_len { length rows.now ≡ length days.now }
    requires rows_in_bounds { at + 43 * length rows.now ≤ length out.old }
    ensures wrote { Wrote out.old at (duty_lines (paired rows.now days.now)) out.new result }
    ensures upper_bound { result ≤ at + 43 * length rows.now }
{
    let mut next = at;
    for i in 0..rows.len() {
        next = write_line(out, next, rows[i], days[i]);
    }
    next
}

// Writes the records to the front of the output, and answers how many bytes they are.
pub fn write_duties(out: &mut [u8], rows: &[usize], days: &[usize]) -> usize
    requires rows_len { length rows.now ≡ length days.now }
    requires rows_in_bounds { 9 + 43 * length rows.now ≤ length out.old }
    ensures wrote { Wrote out.old 0 (duties_text (paired rows.now days.now)) out.new result }
    ensures upper_bound { result ≤ 9 + 43 * length rows.now }
{
    let next = write_bytes(out, 0, b"row,day\r\n");
    write_lines(out, next, rows, days)
}
