// Numbers of so many digits, and days as dates.
ghost use Rattle.std.specs.Prelude.{◌≤◌, ◌+◌, length};
ghost use Rattle.written_text.specs.Wrote.{Wrote};
ghost use Rattle.calendar_format.specs.Texts.{padded};
ghost use Rattle.calendar_format.specs.DateTexts.{date_text};

use civil_dates::date_of;
use decimals::writing::last_digit;

// Writes the last digits of a number, so many, and answers the place behind them.
pub fn write_padded(out: &mut [u8], at: usize, width: usize, number: usize) -> usize
    requires { at + width ≤ length out.old }
    ensures { Wrote out.old at (padded width number) out.new result }
{
    let mut rest = number;
    for left in (0..width).rev() {
        out[at + left] = last_digit(rest);
        rest /= 10;
    }
    at + width
}

// A day as its date.
pub fn write_date(out: &mut [u8], at: usize, day: usize) -> usize
    requires { (at + 8 ≤ length out.old) × (day ≤ 2932896) }
    ensures { Wrote out.old at (date_text day) out.new result }
{
    let date = date_of(day);
    let month = write_padded(out, at, 4, date.year);
    let days = write_padded(out, month, 2, date.month);
    write_padded(out, days, 2, date.day)
}
