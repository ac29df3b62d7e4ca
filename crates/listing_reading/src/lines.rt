// A line of five fields.
ghost use Rattle.std.specs.Prelude.{◌≤◌, length, drop};
ghost use Rattle.listing_format.specs.Parsing.{line_of};
ghost use Rattle.listing_reading.specs.Lines.{LineIs};

use crate::{Line, Listed};
use listing_fields::fields::{read_field, read_last, read_needed};

pub fn read_line(bytes: &[u8], at: usize) -> Option<Line>
    requires { at ≤ length bytes.now }
    ensures { LineIs bytes.now (line_of (drop at bytes.now)) result }
{
    let row = read_needed(bytes, at)?;
    let value = read_needed(bytes, row.next)?;
    let now = read_needed(bytes, value.next)?;
    let capacity = read_field(bytes, now.next)?;
    let sequence = read_last(bytes, capacity.next)?;
    Some(Line {
        numbers: Listed {
            row: row.number,
            value: value.number,
            now: now.number,
            capacity: capacity.key,
            sequence: sequence.key,
        },
        next: sequence.next,
    })
}
