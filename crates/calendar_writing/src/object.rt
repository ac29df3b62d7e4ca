// The whole object, and how long it is.
ghost use Rattle.std.specs.Prelude.{◌≡◌, true, ◌≤◌, ◌+◌, length};
ghost use Rattle.basics.specs.Edits.{all_rows};
ghost use Rattle.written_text.specs.Wrote.{Wrote};
ghost use Rattle.calendar_format.specs.Format.{events, object};
ghost use Rattle.calendar_format.specs.Slices.{paired, datable, object_long};

use crate::events::write_event;
use decimals::writing::digit_count;
use written_text::write_bytes;

// How many bytes the object of these rows takes, with any stamp and any days.
pub fn object_length(rows: &[usize]) -> usize
    requires { (length rows.now ≤ 128) × (all_rows 128 rows.now ≡ true) }
    ensures { result ≡ object_long rows.now }
{
    let mut long = 78;
    for i in 0..rows.len() {
        long = long + 125 + 2 * digit_count(rows[i]);
    }
    long
}

// Whether every day has a date that can be written.
pub fn all_datable(days: &[usize]) -> bool
    ensures { result ≡ datable days.now }
{
    for day in days {
        if 2932896 < *day {
            return false;
        }
    }
    true
}

// The events and the object's last line.
fn write_events(out: &mut [u8], at: usize, stamp: &[u8], rows: &[usize], days: &[usize]) -> usize
    requires rows_len { (length rows.now ≡ length days.now) × (datable days.now ≡ true) }
    requires days_in_bounds { at + length (events stamp.now (paired rows.now days.now)) ≤ length out.old }
    ensures { Wrote out.old at (events stamp.now (paired rows.now days.now)) out.new result }
{
    let mut next = at;
    for i in 0..rows.len() {
        next = write_event(out, next, stamp, rows[i], days[i]);
    }
    write_bytes(out, next, b"END:VCALENDAR\r\n")
}

// Writes the object of rows and days, side by side, to the front of the output.
pub fn write_object(out: &mut [u8], stamp: &[u8], rows: &[usize], days: &[usize]) -> usize
    requires rows_len { (length rows.now ≡ length days.now) × (datable days.now ≡ true) }
    requires days_in_bounds { length (object stamp.now (paired rows.now days.now)) ≤ length out.old }
    ensures { Wrote out.old 0 (object stamp.now (paired rows.now days.now)) out.new result }
{
    let next = write_bytes(
        out,
        0,
        b"BEGIN:VCALENDAR\r\nVERSION:2.0\r\nPRODID:-//turepawon//roster//EN\r\n",
    );
    write_events(out, next, stamp, rows, days)
}
