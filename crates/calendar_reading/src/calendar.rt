// The entry: an object's octets in, its rows and days out.
ghost use Rattle.std.specs.Prelude.{◌≡◌, length};
ghost use Rattle.calendar_format.specs.Reading.{duties_in};
ghost use Rattle.calendar_reading.specs.Events.{EventsAre};
ghost use Rattle.calendar_reading.specs.Reading.{leaves, reading};

use crate::events::read_events;
use crate::octets::{after_text, copy_octets};
use calendar_stamps::is_stamp;
use refusals::Refusal;

// How many duties an object has, which come to stand in the fronts of the cells.
fn read_object(bytes: &[u8], rows: &mut [usize], days: &mut [usize]) -> Option<usize>
    requires { (length rows.old ≡ 128) × (length days.old ≡ 128) }
    ensures { EventsAre (duties_in bytes.now) rows.new days.new result }
{
    let start = after_text(
        bytes,
        0,
        b"BEGIN:VCALENDAR\r\nVERSION:2.0\r\nPRODID:-//turepawon//roster//EN\r\n",
    )?;
    let stamped = after_text(bytes, start, b"BEGIN:VEVENT\r\nDTSTAMP:")?;
    let mut stamp = [0u8; 16];
    copy_octets(bytes, stamped, &mut stamp)?;
    if !is_stamp(&stamp) {
        return None;
    }
    read_events(bytes, start, &stamp, rows, days)
}

// Writes the rows and the days of the duties to the fronts of the outputs, and answers how many there are. A refusal
// leaves both as they were: 13 where the octets are no calendar of ours, 7 where an output is too short.
pub fn read_calendar(
    bytes: &[u8],
    out_rows: &mut [usize],
    out_days: &mut [usize],
) -> Result<usize, Refusal>
    ensures { leaves result out_rows.new out_days.new ≡ reading bytes.now out_rows.old out_days.old }
{
    let mut rows = outputs::scratch(0);
    let mut days = outputs::scratch(0);
    let Some(count) = read_object(bytes, &mut rows, &mut days) else {
        return Err(Refusal::NoCalendar);
    };
    if out_rows.len() < count {
        return Err(Refusal::Room);
    }
    if out_days.len() < count {
        return Err(Refusal::Room);
    }
    outputs::copy_front(&rows[..count], out_rows);
    outputs::copy_front(&days[..count], out_days);
    Ok(count)
}
