// A field and what closes it. None is read where the text is no field.
ghost use Rattle.std.specs.Prelude.{◌≤◌, ◌-◌, length, take, drop, Some};
ghost use Rattle.listing_format.specs.Parsing.{content, both, after_comma, after_line, field_of, last_of, needed};
ghost use Rattle.listing_fields.specs.Places.{PlaceIs, FieldIs, NeededIs};

use crate::{Field, Needed};
use decimals::reading::{field_end, read_decimal};

// Behind a comma.
fn after_comma(bytes: &[u8], end: usize) -> Option<usize>
    requires { end ≤ length bytes.now }
    ensures { PlaceIs bytes.now (after_comma (drop end bytes.now)) result }
{
    if end == bytes.len() {
        return None;
    }
    if bytes[end] != 44 {
        return None;
    }
    Some(end + 1)
}

// Behind a line's end; the last line may lack it.
pub fn after_line(bytes: &[u8], end: usize) -> Option<usize>
    requires { end ≤ length bytes.now }
    ensures { PlaceIs bytes.now (after_line (drop end bytes.now)) result }
{
    if end == bytes.len() {
        return Some(end);
    }
    if bytes.len() - end < 2 {
        return None;
    }
    if bytes[end] != 13 {
        return None;
    }
    if bytes[end + 1] != 10 {
        return None;
    }
    Some(end + 2)
}

// What stands between two places, and the place that was found behind it.
fn field_content(bytes: &[u8], at: usize, end: usize, next: usize) -> Option<Field>
    requires { (at ≤ end) × (end ≤ length bytes.now) × (next ≤ length bytes.now) }
    ensures { FieldIs bytes.now (both (content (take (end - at) (drop at bytes.now))) (Some (drop next bytes.now))) result }
{
    if at == end {
        return Some(Field { key: None, next });
    }
    let number = read_decimal(&bytes[at..end])?;
    Some(Field {
        key: Some(number),
        next,
    })
}

// A field before a comma.
pub fn read_field(bytes: &[u8], at: usize) -> Option<Field>
    requires { at ≤ length bytes.now }
    ensures { FieldIs bytes.now (field_of (drop at bytes.now)) result }
{
    let end = field_end(bytes, at);
    let next = after_comma(bytes, end)?;
    field_content(bytes, at, end, next)
}

// The last field of a line.
pub fn read_last(bytes: &[u8], at: usize) -> Option<Field>
    requires { at ≤ length bytes.now }
    ensures { FieldIs bytes.now (last_of (drop at bytes.now)) result }
{
    let end = field_end(bytes, at);
    let next = after_line(bytes, end)?;
    field_content(bytes, at, end, next)
}

// A field before a comma that is not blank.
pub fn read_needed(bytes: &[u8], at: usize) -> Option<Needed>
    requires { at ≤ length bytes.now }
    ensures { NeededIs bytes.now (needed (drop at bytes.now)) result }
{
    let field = read_field(bytes, at)?;
    let number = field.key?;
    Some(Needed {
        number,
        next: field.next,
    })
}
