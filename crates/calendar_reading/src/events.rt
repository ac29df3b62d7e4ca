// The events of an object, row by row: each row is tried once, so no row number is parsed.
ghost use Rattle.std.specs.Prelude.{◌≡◌, ◌≤◌, ◌<◌, length, drop};
ghost use Rattle.calendar_format.specs.Folding.{unfolded};
ghost use Rattle.calendar_format.specs.Reading.{event_at, events_from};
ghost use Rattle.calendar_reading.specs.Events.{EventIs, Tried, EventsAre};

use crate::octets::{after_text, copy_octets, ended};
use calendar_stamps::day_of;
use calendar_writing::events::{write_lead, write_rest};

// An event's day, and the place behind the event.
#[derive(Clone, Copy)]
struct Event {
    day: usize,
    next: usize,
}

// How many duties were read, and the place behind the last of them.
#[derive(Clone, Copy)]
pub struct Reached {
    pub count: usize,
    pub place: usize,
}

// The event of a row, if it stands at the place. What is to stand there is written as the writer does, and compared.
fn read_event(bytes: &[u8], at: usize, stamp: &[u8], row: usize) -> Option<Event>
    requires { (at ≤ length bytes.now) × (length stamp.now ≡ 16) × (row < 128) }
    ensures { EventIs bytes.now (event_at stamp.now row (unfolded (drop at bytes.now))) result }
{
    let mut text = [0u8; 62];
    let mut date = [0u8; 8];
    let lead = write_lead(&mut text, 0, stamp, row);
    let dated = after_text(bytes, at, &text[..lead])?;
    let behind = copy_octets(bytes, dated, &mut date)?;
    let day = day_of(&date)?;
    let rest = write_rest(&mut text, 0, row, day);
    let next = after_text(bytes, behind, &text[..rest])?;
    Some(Event { day, next })
}

// Tries a row: its event, where it stands, is a duty more.
fn try_row(
    bytes: &[u8],
    stamp: &[u8],
    row: usize,
    reached: Reached,
    rows: &mut [usize],
    days: &mut [usize],
) -> Reached
    requires place_in_bounds { (reached.place ≤ length bytes.now) × (length stamp.now ≡ 16) × (row < 128) }
    requires count_in_bounds { (reached.count < length rows.old) × (length rows.old ≡ length days.old) }
    ensures { Tried bytes.now row (event_at stamp.now row (unfolded (drop reached.place bytes.now))) rows.old days.old reached rows.new days.new result }
{
    let Some(event) = read_event(bytes, reached.place, stamp, row) else {
        return reached;
    };
    let count = reached.count;
    rows[count] = row;
    days[count] = event.day;
    Reached {
        count: count + 1,
        place: event.next,
    }
}

// How many duties the events from the place on are, up to the object's end.
pub fn read_events(
    bytes: &[u8],
    at: usize,
    stamp: &[u8],
    rows: &mut [usize],
    days: &mut [usize],
) -> Option<usize>
    requires { (at ≤ length bytes.now) × (length stamp.now ≡ 16) × (length rows.old ≡ 128) × (length days.old ≡ 128) }
    ensures { EventsAre (events_from 128 0 stamp.now (unfolded (drop at bytes.now))) rows.new days.new result }
{
    let mut reached = Reached {
        count: 0,
        place: at,
    };
    for row in 0..128 {
        reached = try_row(bytes, stamp, row, reached, rows, days);
    }
    let end = after_text(bytes, reached.place, b"END:VCALENDAR\r\n")?;
    if !ended(bytes, end) {
        return None;
    }
    Some(reached.count)
}
