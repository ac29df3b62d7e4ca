// A roster file: the text, and what its records may say together.
ghost use Rattle.std.specs.Prelude.{◌≤◌, length};
ghost use Rattle.listing_reading.specs.Cells.{RosterIs};

use crate::agreement::records_agree;
use crate::cells::read_records;

// How many records a roster file has, which come to stand in the front of the cells. 7,300 records, seven cells each, are
// more than any file has.
pub fn read_roster(bytes: &[u8], cells: &mut [usize]) -> Option<usize>
    requires { 51100 ≤ length cells.old }
    ensures { RosterIs bytes.now cells.old cells.new result }
{
    if 65536 < bytes.len() {
        return None;
    }
    let count = read_records(bytes, cells)?;
    if !records_agree(cells, count) {
        return None;
    }
    Some(count)
}
