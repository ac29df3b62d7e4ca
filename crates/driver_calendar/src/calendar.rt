// The calendar of a driver, for anyone who lends tables and an index.
ghost use Rattle.std.specs.Prelude.{◌≡◌, true, ◌≤◌, length};
ghost use Rattle.basics.specs.Edits.{all_rows};
ghost use Rattle.assignment_tables.specs.Tables.{the_board};
ghost use Rattle.assignment_index.specs.Index.{the_roster, of_lent};
ghost use Rattle.assignment_state.specs.Admission.{Ready, IsReady};
ghost use Rattle.calendar_format.specs.Slices.{paired};
ghost use Rattle.calendar_format.specs.Stamps.{is_stamp};
ghost use Rattle.refusals.specs.Refusals.{accepted};
ghost use Rattle.driver_calendar.specs.Calendars.{leaves, duties, calendar_left, calendaring};

use crate::gather::gather;
use assignment_index::Index;
use assignment_state::admit;
use assignment_tables::{Shape, Tables};
use calendar_stamps::is_stamp;
use calendar_writing::object::{all_datable, object_length, write_object};
use refusals::Refusal;

// The object of duties that were found, if there are any and it can be written.
fn write_duties(
    stamp: &[u8],
    rows: &[usize],
    days: &[usize],
    out: &mut [u8],
) -> Result<usize, Refusal>
    requires rows_len { (length rows.now ≡ length days.now) × (length rows.now ≤ 128) }
    requires rows_value { (all_rows 128 rows.now ≡ true) × (is_stamp stamp.now ≡ true) }
    ensures { leaves result out.new ≡ calendar_left accepted (paired rows.now days.now) stamp.now out.old }
{
    let duties = rows.len();
    if duties == 0 {
        return Err(Refusal::NoDays);
    }
    if !all_datable(days) {
        return Err(Refusal::DayTooLate);
    }
    if out.len() < object_length(rows) {
        return Err(Refusal::Room);
    }
    Ok(write_object(out, stamp, rows, days))
}

// The calendar of a driver, of an index that is admitted.
pub fn write_calendar(
    tables: &Tables<'_>,
    index: &Index<'_, '_>,
    driver: usize,
    stamp: &[u8],
    out: &mut [u8],
) -> Result<usize, Refusal>
    requires { IsReady tables.now index.now }
    ensures { leaves result out.new ≡ calendar_left accepted (duties (the_board tables.now) (the_roster tables.now index.now) driver) stamp.now out.old }
{
    if !is_stamp(stamp) {
        return Err(Refusal::Stamp);
    }
    let mut rows = outputs::scratch(0);
    let mut days = outputs::scratch(0);
    let count = gather(
        tables.shape.rows,
        index.records,
        driver,
        &mut rows,
        &mut days,
    );
    write_duties(stamp, &rows[..count], &days[..count], out)
}

// Writes the calendar of a driver to the front of the output, and answers how many octets it has. A refusal leaves the
// output as it was.
pub fn driver_calendar(
    tables: &Tables<'_>,
    index: &Index<'_, '_>,
    driver: usize,
    stamp: &[u8],
    out: &mut [u8],
) -> Result<usize, Refusal>
    ensures { leaves result out.new ≡ of_lent calendaring tables.now index.now driver stamp.now out.old }
{
    admit::admit(tables, index, true)?;
    write_calendar(tables, index, driver, stamp, out)
}
