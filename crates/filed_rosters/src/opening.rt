// The entry: a roster file's bytes in, tables and index out.
ghost use Rattle.std.specs.Prelude.{◌≡◌, ◌≤◌, length};
ghost use Rattle.filed_rosters.specs.Filing.{roomy, FiledIs};

use crate::index::file_index;
use crate::{CELLS_ROOM, KEYS_ROOM, MARKS_ROOM};
use assignment_tables::Shape;
use listing_shape::opening::open_file;
use refusals::Refusal;

// The scratch has its stated sizes.
fn has_room(cells: &[usize], marks: &[u8], keys: &[usize]) -> bool
    ensures { result ≡ roomy cells.now marks.now keys.now }
{
    (CELLS_ROOM <= cells.len()) & (MARKS_ROOM <= marks.len()) & (KEYS_ROOM <= keys.len())
}

// Opens a roster file: its tables and its index come to stand in the fronts of the slices, and it answers their shape.
// Refused are too little scratch, an input that is no roster file, and then too many rows or values.
pub fn open_roster(
    input: &[u8],
    cells: &mut [usize],
    marks: &mut [u8],
    keys: &mut [usize],
    records: &mut [usize],
    members: &mut [usize],
) -> Result<Shape, Refusal>
    requires { (640 ≤ length records.old) × (387 ≤ length members.old) }
    ensures { FiledIs input.now cells.old marks.old keys.old records.old members.old cells.new marks.new keys.new records.new members.new result }
{
    if !has_room(cells, marks, keys) {
        return Err(Refusal::Room);
    }
    let file = open_file(input, cells)?;
    file_index(file.shape, cells, file.count, marks, keys, records, members);
    Ok(file.shape)
}
