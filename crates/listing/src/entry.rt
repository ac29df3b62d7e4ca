// The entry: a roster file's bytes in, the bytes of its listing out.
ghost use Rattle.filed_rosters.specs.Filing.{roomy};
ghost use Rattle.listing.specs.FileListing.{ListingIs};

use crate::OUTPUT_ROOM;
use crate::windows::write_index;
use filed_rosters::opening::open_roster;
use refusals::Refusal;

// Writes the listing to the front of the output, and answers how long it is. On a refusal the output
// is as it was; cells, marks and keys are scratch.
pub fn listing(
    input: &[u8],
    output: &mut [u8],
    cells: &mut [usize],
    marks: &mut [u8],
    keys: &mut [usize],
) -> Result<usize, Refusal>
    ensures { ListingIs input.now output.old (roomy cells.old marks.old keys.old) output.new result }
{
    let mut records = listing_room::records_room();
    let mut members = listing_room::members_room();
    let shape = open_roster(input, cells, marks, keys, &mut records, &mut members)?;
    if output.len() < OUTPUT_ROOM {
        return Err(Refusal::Room);
    }
    Ok(write_index(shape, marks, keys, &records, &members, output))
}
