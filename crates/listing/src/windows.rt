// The listing of tables and an index: the rows are put in order, and their windows are walked.
ghost use Rattle.std.specs.Prelude.{◌≤◌, length};
ghost use Rattle.assignment_tables.specs.Tables.{board, the_board};
ghost use Rattle.assignment_index.specs.Index.{roster_in, the_roster, of_index};
ghost use Rattle.written_text.specs.Wrote.{Wrote};
ghost use Rattle.listing_moves.specs.WalkText.{Bounded};
ghost use Rattle.filed_rosters.specs.Filing.{marks_front, keys_front, records_front, Stands};
ghost use Rattle.listing.specs.FileListing.{board_listing};
ghost use Rattle.listing.specs.Steps.{Listable};

use assignment_index::Index;
use assignment_order::listing::order_rows;
use assignment_tables::{Shape, Tables, layout};
use listing_moves::write_listing;

// The moves of an index that is there. No row has a rank, so any ranks do.
fn write_windows(tables: &Tables<'_>, index: &Index<'_, '_>, output: &mut [u8]) -> usize
    requires listable { of_index Listable tables.now index.now }
    requires in_bounds { 102423 ≤ length output.old }
    ensures { Wrote output.old 0 (board_listing (the_board tables.now) (the_roster tables.now index.now)) output.new result }
{
    let ranks = listing_room::no_ranks();
    let given = layout::ranks_length(tables.shape);
    let ranked = Tables {
        shape: tables.shape,
        marks: tables.marks,
        keys: tables.keys,
        ranks: &ranks[..given],
    };
    let mut order = outputs::scratch(0);
    let count = order_rows(&ranked, index, 0, &mut order);
    write_listing(tables, index, &order[..count], output)
}

// The moves of an index in the fronts of slices.
pub fn write_index(
    shape: Shape,
    marks: &[u8],
    keys: &[usize],
    records: &[usize],
    members: &[usize],
    output: &mut [u8],
) -> usize
    requires stands { Stands shape marks.now keys.now records.now members.now }
    requires bounded { Bounded (board shape (marks_front shape marks.now) (keys_front shape keys.now)) }
    requires in_bounds { 102423 ≤ length output.old }
    ensures { Wrote output.old 0 (board_listing (board shape (marks_front shape marks.now) (keys_front shape keys.now)) (roster_in shape.rows (records_front shape records.now))) output.new result }
{
    let rows = shape.rows;
    let marks_end = layout::marks_length(shape);
    let keys_end = layout::keys_length(shape);
    let tables = Tables {
        shape,
        marks: &marks[..marks_end],
        keys: &keys[..keys_end],
        ranks: &[],
    };
    let index = Index {
        records: &records[..5 * rows],
        members: &members[..3 * (rows + 1)],
    };
    write_windows(&tables, &index, output)
}
