// The lines of the output.
ghost use Rattle.std.specs.Prelude.{◌≡◌, ◌++◌, ◌≤◌, ◌+◌, length};
ghost use Rattle.basics.specs.Edits.{edits};
ghost use Rattle.listing_format.specs.Format.{line_end};
ghost use Rattle.written_text.specs.Wrote.{Wrote};
ghost use Rattle.listing_text.specs.Output.{output_header, edit_line, move_lines, refusal_text};

use crate::pieces::{write_field, write_last};
use written_text::write_bytes;

// The header line.
pub fn write_header(out: &mut [u8]) -> usize
    requires { 23 ≤ length out.old }
    ensures { Wrote out.old 0 (output_header ++ line_end) out.new result }
{
    write_bytes(out, 0, b"reason,move,row,value\r\n")
}

// A refusal's only line.
pub fn write_refusal(out: &mut [u8], number: usize) -> usize
    requires { length (refusal_text number) ≤ length out.old }
    ensures { Wrote out.old 0 (refusal_text number) out.new result }
{
    let next = write_bytes(out, 0, b"refused,");
    write_last(out, next, number)
}

// The line of an edit.
fn write_edit(out: &mut [u8], at: usize, number: usize, row: usize, value: usize) -> usize
    requires { at + length (edit_line number (record { row = row; value = value })) ≤ length out.old }
    ensures { Wrote out.old at (edit_line number (record { row = row; value = value })) out.new result }
{
    let second = write_bytes(out, at, b"scalar_assignment_augmenting_rematch,");
    let third = write_field(out, second, number);
    let fourth = write_field(out, third, row);
    write_last(out, fourth, value)
}

// The lines of a move: its edits, rows and values side by side, under its number.
pub fn write_move(
    out: &mut [u8],
    at: usize,
    number: usize,
    rows: &[usize],
    values: &[usize],
) -> usize
    requires rows_len { length rows.now ≡ length values.now }
    requires values_in_bounds { at + length (move_lines number (edits rows.now values.now)) ≤ length out.old }
    ensures { Wrote out.old at (move_lines number (edits rows.now values.now)) out.new result }
{
    let mut next = at;
    for i in 0..rows.len() {
        next = write_edit(out, next, number, rows[i], values[i]);
    }
    next
}
