// An event: what stands before its first date, and what stands behind.
ghost use Rattle.std.specs.Prelude.{◌≤◌, ◌+◌, length};
ghost use Rattle.written_text.specs.Wrote.{Wrote};
ghost use Rattle.calendar_format.specs.Format.{lead, rest, event};

use crate::dates::write_date;
use decimals::writing::write_decimal;
use written_text::write_bytes;

// Up to the first date: the stamp, and the row in the event's name.
pub fn write_lead(out: &mut [u8], at: usize, stamp: &[u8], row: usize) -> usize
    requires { at + length (lead stamp.now row) ≤ length out.old }
    ensures { Wrote out.old at (lead stamp.now row) out.new result }
{
    let stamped = write_bytes(out, at, b"BEGIN:VEVENT\r\nDTSTAMP:");
    let named = write_bytes(out, stamped, stamp);
    let numbered = write_bytes(out, named, b"\r\nUID:turepawon-row-");
    let dated = write_decimal(out, numbered, row);
    write_bytes(out, dated, b"-")
}

// From the first date on: the day that the event is, and what it is called.
pub fn write_rest(out: &mut [u8], at: usize, row: usize, day: usize) -> usize
    requires { (at + length (rest row day) ≤ length out.old) × (day ≤ 2932896) }
    ensures { Wrote out.old at (rest row day) out.new result }
{
    let dated = write_bytes(out, at, b"\r\nDTSTART;VALUE=DATE:");
    let called = write_date(out, dated, day);
    let numbered = write_bytes(out, called, b"\r\nSUMMARY:Duty ");
    let closed = write_decimal(out, numbered, row);
    write_bytes(out, closed, b"\r\nEND:VEVENT\r\n")
}

pub fn write_event(out: &mut [u8], at: usize, stamp: &[u8], row: usize, day: usize) -> usize
    requires { (at + length (event stamp.now row day) ≤ length out.old) × (day ≤ 2932896) }
    ensures { Wrote out.old at (event stamp.now row day) out.new result }
{
    let dated = write_lead(out, at, stamp, row);
    let behind = write_date(out, dated, day);
    write_rest(out, behind, row, day)
}
