// `read-calendar`: an iCalendar object in, its duties as records out.
ghost use Rattle.std.specs.Prelude.{◌≡◌, ◌≤◌, length};

use calendar_reading::calendar::read_calendar;
use duty_records::write_duties;
use listing_input::read_input;
use refusal_lines::refuse;
use refusals::Refusal;
use std::io;

// A byte more than is read as an object: one of ours has 16,626 octets at most, and folds come on top.
const INPUT_ROOM: usize = 262145;

// The records of 128 duties.
const OUTPUT_ROOM: usize = 5513;

fn say(rt: &impl Print, rows: &[usize], days: &[usize]) -> io::Result<()>
    requires { (length rows.now ≡ length days.now) × (length rows.now ≤ 128) }
{
    let mut output: [u8; OUTPUT_ROOM] = [0; OUTPUT_ROOM];
    let n = write_duties(&mut output, rows, days);
    rt.write_all(&output[..n])
}

// Writes the duties of the object, or says why not.
fn answer(rt: &impl Print, bytes: &[u8]) -> io::Result<()> {
    let mut rows = outputs::scratch(0);
    let mut days = outputs::scratch(0);
    match read_calendar(bytes, &mut rows, &mut days) {
        Err(refusal) => refuse(rt, refusal),
        Ok(n) => say(rt, &rows[..n], &days[..n]),
    }
}

// The duties of the object that standard input is; what fills the room is too long.
pub fn run(rt: &(impl Print + Input)) -> io::Result<()> {
    let mut input: [u8; INPUT_ROOM] = [0; INPUT_ROOM];
    let Ok(count) = read_input(&mut rt.reader(), &mut input) else {
        return refuse(rt, Refusal::NoCalendar);
    };
    if count == INPUT_ROOM {
        return refuse(rt, Refusal::NoCalendar);
    }
    answer(rt, &input[..count])
}
