// A driver's calendar of a roster file. docs/RULES.md, 12.1 to 12.3 and 13.

#![tactic(auto)]

ghost use Rattle.std.specs.Prelude.{◌≡◌};
ghost use Rattle.assignment_tables.specs.Tables.{board};
ghost use Rattle.assignment_index.specs.Index.{roster_in};
ghost use Rattle.filed_rosters.specs.Filing.{roomy, marks_front, keys_front, records_front, Stands};
ghost use Rattle.refusals.specs.Refusals.{accepted};
ghost use Rattle.driver_calendar.specs.Calendars.{leaves, duties, calendar_left};
ghost use Rattle.planner_calendar.specs.FileCalendar.{CalendarIs};

use assignment_index::Index;
use assignment_tables::{Shape, Tables, layout};
use driver_calendar::calendar::write_calendar;
use filed_rosters::opening::open_roster;
use refusals::Refusal;

// The calendar of an index in the fronts of slices. No row has a rank, so any ranks do.
fn index_calendar(
    shape: Shape,
    marks: &[u8],
    keys: &[usize],
    records: &[usize],
    members: &[usize],
    driver: usize,
    stamp: &[u8],
    output: &mut [u8],
) -> Result<usize, Refusal>
    requires { Stands shape marks.now keys.now records.now members.now }
    ensures { leaves result output.new ≡ calendar_left accepted (duties (board shape (marks_front shape marks.now) (keys_front shape keys.now)) (roster_in shape.rows (records_front shape records.now)) driver) stamp.now output.old }
{
    let rows = shape.rows;
    let ranks = listing_room::no_ranks();
    let given = layout::ranks_length(shape);
    let marks_end = layout::marks_length(shape);
    let keys_end = layout::keys_length(shape);
    let tables = Tables {
        shape,
        marks: &marks[..marks_end],
        keys: &keys[..keys_end],
        ranks: &ranks[..given],
    };
    let index = Index {
        records: &records[..5 * rows],
        members: &members[..3 * (rows + 1)],
    };
    write_calendar(&tables, &index, driver, stamp, output)
}

// Writes the calendar of a driver to the front of the output, and answers how many octets it has. On a refusal the
// output is as it was; cells, marks and keys are scratch.
pub fn file_calendar(
    input: &[u8],
    driver: usize,
    stamp: &[u8],
    output: &mut [u8],
    cells: &mut [usize],
    marks: &mut [u8],
    keys: &mut [usize],
) -> Result<usize, Refusal>
    ensures { CalendarIs input.now driver stamp.now output.old (roomy cells.old marks.old keys.old) output.new result }
{
    let mut records = listing_room::records_room();
    let mut members = listing_room::members_room();
    let shape = open_roster(input, cells, marks, keys, &mut records, &mut members)?;
    index_calendar(
        shape, marks, keys, &records, &members, driver, stamp, output,
    )
}
