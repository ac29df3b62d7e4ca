// A driver's calendar, written and read back.
ghost use Rattle.std.specs.Prelude.{◌≡◌};
ghost use Rattle.calendar_reading.specs.Reading.{reading};
ghost use Rattle.driver_calendar.specs.Calendars.{calendaring};
ghost use Rattle.engine.specs.Asked.{shaped};
ghost use Rattle.engine.specs.Told.{exported, calendar_told, imported, duties_told};

use assignment_index::Index;
use assignment_tables::{Shape, Tables};
use refusals::codes::code;

// Writes the driver's duties as an iCalendar object to the front of the output. `written` becomes the number
// of its octets; a refusal leaves it and the output as they were.
pub fn turepawon_driver_calendar(
    rows: usize,
    values: usize,
    edge_rule: u8,
    marks: &[u8],
    keys: &[usize],
    ranks: &[i64],
    records: &[usize],
    members: &[usize],
    driver: usize,
    stamp: &[u8],
    out: &mut [u8],
    written: &mut usize,
) -> u8
    ensures { exported result written.new out.new
        ≡ calendar_told (calendaring (shaped rows values edge_rule) marks.now keys.now ranks.now records.now members.now driver stamp.now out.old) written.old }
{
    let tables = Tables {
        shape: Shape {
            rows,
            values,
            edge_rule,
        },
        marks,
        keys,
        ranks,
    };
    let index = Index { records, members };
    let calendar = driver_calendar::calendar::driver_calendar(&tables, &index, driver, stamp, out);
    *written = calendar.unwrap_or(*written);
    code(calendar)
}

// Reads such an object, folded anywhere: its rows and its days go to the fronts of the outputs, and `count`
// becomes their number. A refusal leaves all three as they were.
pub fn turepawon_read_calendar(
    bytes: &[u8],
    out_rows: &mut [usize],
    out_days: &mut [usize],
    count: &mut usize,
) -> u8
    ensures { imported result count.new out_rows.new out_days.new
        ≡ duties_told (reading bytes.now out_rows.old out_days.old) count.old }
{
    let calendar = calendar_reading::calendar::read_calendar(bytes, out_rows, out_days);
    *count = calendar.unwrap_or(*count);
    code(calendar)
}
