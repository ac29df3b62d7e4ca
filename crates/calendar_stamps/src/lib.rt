// Texts that are dates, and texts that are stamps. docs/RULES.md, 13.

#![tactic(auto)]

ghost use Rattle.std.specs.Prelude.{◌≡◌, length};
ghost use Rattle.calendar_format.specs.DateTexts.{date_at, day_of};
ghost use Rattle.calendar_format.specs.Stamps.{in_range, is_stamp};
ghost use Rattle.calendar_stamps.specs.Fields.{time_at};

use civil_dates::{Date, day_number, is_date, month_days};
use decimals::reading::read_digits;

// A time of day, or what only looks like one.
#[derive(Clone, Copy)]
struct Time {
    hour: usize,
    minute: usize,
    second: usize,
}

// YYYYMMDD: any three numbers of four, two and two digits.
fn date_in(text: &[u8]) -> Option<Date>
    requires { length text.now ≡ 8 }
    ensures { result ≡ date_at text.now }
{
    let year = read_digits(&text[0..4])?;
    let month = read_digits(&text[4..6])?;
    let day = read_digits(&text[6..8])?;
    Some(Date { year, month, day })
}

// THHMMSSZ
fn time_in(text: &[u8]) -> Option<Time>
    requires { length text.now ≡ 8 }
    ensures { result ≡ time_at text.now }
{
    if text[0] != b'T' {
        return None;
    }
    if text[7] != b'Z' {
        return None;
    }
    let hour = read_digits(&text[1..3])?;
    let minute = read_digits(&text[3..5])?;
    let second = read_digits(&text[5..7])?;
    Some(Time {
        hour,
        minute,
        second,
    })
}

// A month, a day of it, and a time of day; a leap second at any minute.
fn in_range(date: Date, time: Time) -> bool
    ensures { result ≡ in_range (record { year = date.year; month = date.month; day = date.day; hour = time.hour; minute = time.minute; second = time.second }) }
{
    let last = month_days(date.year, date.month);
    (1 <= date.month)
        & ((date.month <= 12)
            & ((1 <= date.day)
                & ((date.day <= last)
                    & ((time.hour <= 23) & ((time.minute <= 59) & (time.second <= 60))))))
}

// Whether the text is a UTC date-time.
pub fn is_stamp(text: &[u8]) -> bool
    ensures { result ≡ is_stamp text.now }
{
    if text.len() != 16 {
        return false;
    }
    let Some(date) = date_in(&text[0..8]) else {
        return false;
    };
    let Some(time) = time_in(&text[8..16]) else {
        return false;
    };
    in_range(date, time)
}

// How many days after 1970-01-01 the date is whose text it is.
pub fn day_of(text: &[u8]) -> Option<usize>
    requires { length text.now ≡ 8 }
    ensures { result ≡ day_of text.now }
{
    let date = date_in(text)?;
    if !is_date(date) {
        return None;
    }
    Some(day_number(date))
}
