// The keys of a row as the records have them, and the three parts of the members.
ghost use Rattle.std.specs.Prelude.{◌≡◌};
ghost use Rattle.assignment_index.specs.Index.{given_number, key_number, by_capacity, by_value, by_sequence};

use crate::columns;
use crate::columns::Part;
use assignment_tables::{EMPTY, Shape, lookup};

// A key as the records have it: given is 1 or 0, and number is 0 where the key is absent.
#[derive(Clone, Copy)]
pub struct Recorded {
    pub given: usize,
    pub number: usize,
}

pub fn numbers_of(key: Option<usize>) -> Recorded
    ensures { (result.given ≡ given_number key) × (result.number ≡ key_number key) }
{
    Recorded {
        given: usize::from(key.is_some()),
        number: key.unwrap_or(0),
    }
}

pub fn by_capacity() -> Part
    ensures { result ≡ by_capacity }
{
    Part {
        column: 0,
        absent: 0,
        flags: 1,
        high: 2,
        low: 2,
    }
}

pub fn by_value() -> Part
    ensures { result ≡ by_value }
{
    Part {
        column: 1,
        absent: EMPTY,
        flags: 0,
        high: 0,
        low: 0,
    }
}

pub fn by_sequence() -> Part
    ensures { result ≡ by_sequence }
{
    Part {
        column: 2,
        absent: 0,
        flags: 3,
        high: 0,
        low: 4,
    }
}
