// Tables, roster and index of the records in the cells.
ghost use Rattle.std.specs.Prelude.{◌≡◌, ◌≤◌, length};
ghost use Rattle.assignment_tables.specs.Layout.{marks_length, keys_length};
ghost use Rattle.assignment_index.specs.Columns.{records_length, members_length};
ghost use Rattle.listing_tables.specs.Filled.{file_marks, file_keys};
ghost use Rattle.filed_rosters.specs.Filing.{Counted, file_records, file_members, Fronts};

use assignment_refresh::build;
use assignment_tables::{Shape, Tables, layout};
use listing_tables::roster::fill_roster;
use listing_tables::tables::{fill_keys, fill_marks};

// In slices of their lengths, with room for the roster.
fn fill_index(
    shape: Shape,
    cells: &[usize],
    count: usize,
    marks: &mut [u8],
    keys: &mut [usize],
    roster: &mut [usize],
    records: &mut [usize],
    members: &mut [usize],
)
    requires counted { Counted cells.now count shape }
    requires marks_len { (length marks.old ≡ marks_length shape) × (length keys.old ≡ keys_length shape) }
    requires roster_len { (length roster.old ≡ shape.rows) × (length records.old ≡ records_length shape.rows) × (length members.old ≡ members_length shape.rows) }
    ensures marks_value { (marks.new ≡ file_marks shape cells.now count) × (keys.new ≡ file_keys shape cells.now count) }
    ensures records_value { (records.new ≡ file_records shape cells.now count) × (members.new ≡ file_members shape cells.now count) }
{
    fill_marks(shape, cells, count, marks);
    fill_keys(shape, cells, count, keys);
    fill_roster(cells, count, shape.rows, shape.values, roster);
    let tables = Tables {
        shape,
        marks,
        keys,
        ranks: &[],
    };
    build::build(&tables, roster, records, members);
}

// In the fronts of slices that have room for any file.
pub fn file_index(
    shape: Shape,
    cells: &[usize],
    count: usize,
    marks: &mut [u8],
    keys: &mut [usize],
    records: &mut [usize],
    members: &mut [usize],
)
    requires counted { Counted cells.now count shape }
    requires in_bounds { (49792 ≤ length marks.old) × (16384 ≤ length keys.old) }
    requires in_bounds_2 { (640 ≤ length records.old) × (387 ≤ length members.old) }
    ensures { Fronts shape cells.now count marks.old keys.old records.old members.old marks.new keys.new records.new members.new }
{
    let rows = shape.rows;
    let mut roster = outputs::scratch(0);
    let marks_end = layout::marks_length(shape);
    let keys_end = layout::keys_length(shape);
    fill_index(
        shape,
        cells,
        count,
        &mut marks[..marks_end],
        &mut keys[..keys_end],
        &mut roster[..rows],
        &mut records[..5 * rows],
        &mut members[..3 * (rows + 1)],
    );
}
