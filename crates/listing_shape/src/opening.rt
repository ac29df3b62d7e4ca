// Which files are opened, and which refusal the others get.
ghost use Rattle.std.specs.Prelude.{◌≤◌, length};
ghost use Rattle.listing_shape.specs.Opening.{OpenedIs};

use crate::RosterFile;
use crate::counts::file_shape;
use listing_reading::roster::read_roster;
use refusals::Refusal;

// Reads a roster file's records to the front of the cells, and counts what they name: refused are
// an input that is no roster file, and then too many rows or values.
pub fn open_file(input: &[u8], cells: &mut [usize]) -> Result<RosterFile, Refusal>
    requires { 51100 ≤ length cells.old }
    ensures { OpenedIs input.now cells.old cells.new result }
{
    let Some(count) = read_roster(input, cells) else {
        return Err(Refusal::Malformed);
    };
    let Some(shape) = file_shape(cells, count) else {
        return Err(Refusal::Sizes);
    };
    Ok(RosterFile { shape, count })
}
