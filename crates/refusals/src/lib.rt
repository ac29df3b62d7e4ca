// Why an entry refuses what it is lent, and the numbers of refusals. docs/RULES.md, 11.

#![tactic(auto)]

pub mod codes;

ghost use Rattle.std.specs.Prelude.{◌≡◌};
ghost use Rattle.refusals.specs.Refusals.{number};

// A refusal leaves outputs, index and cursor exactly as they were.
#[derive(Clone, Copy, Debug, PartialEq, Eq)]
pub enum Refusal {
    // more than 128 rows, 64 values, or 128 rows in a window or an order; a slice whose length is not the stated one
    Sizes,
    // a row counts more than 64 candidates, or one it counts is no value
    Candidates,
    // a held value, or one to be refreshed, is neither empty nor in range
    HeldValue,
    // a row to be refreshed is out of range
    RowOutOfRange,
    // a row to be refreshed was named before in that list
    RowNamedTwice,
    // the lent index is not the one that tables and roster give
    FalseIndex,
    // an output is too short
    Room,
    // a depth over 8
    Depth,
    // the program's input is malformed
    Malformed,
    // a cursor that is none for the order
    Cursor,
    // one of a driver's days is after 9999-12-31
    DayTooLate,
    // octets that are no calendar of ours
    NoCalendar,
    // a driver who holds no row with a day
    NoDays,
    // a stamp that is no UTC date-time
    Stamp,
}

impl Refusal {
    // The number that stands for it in docs/RULES.md and at the C interface.
    pub fn number(self) -> u8
        ensures { result ≡ number self }
    {
        match self {
            Refusal::Sizes => 1,
            Refusal::Candidates => 2,
            Refusal::HeldValue => 3,
            Refusal::RowOutOfRange => 4,
            Refusal::RowNamedTwice => 5,
            Refusal::FalseIndex => 6,
            Refusal::Room => 7,
            Refusal::Depth => 8,
            Refusal::Malformed => 9,
            Refusal::Cursor => 10,
            Refusal::DayTooLate => 11,
            Refusal::NoCalendar => 13,
            Refusal::NoDays => 16,
            Refusal::Stamp => 17,
        }
    }
}
