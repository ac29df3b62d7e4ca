// Displacement: the optional blockers of a row are emptied, in rising order, behind the list so far.
ghost use Rattle.std.specs.Prelude.{◌≡◌, true, ◌≤◌, length};
ghost use Rattle.assignment_tables.specs.Tables.{board, legal_at, the_board, of_tables};
ghost use Rattle.assignment_index.specs.Index.{Indexed, the_roster, IsIndexed};
ghost use Rattle.search_rules.specs.Search.{displaced};
ghost use Rattle.search_rules.specs.Lifted.{Lifted};
ghost use Rattle.path_steps.specs.Lists.{front, Standing};

use assignment_index::Index;
use assignment_tables::{EMPTY, Shape, Tables};
use path_blockers::{blocker, rows};

// Empties each optional blocker: the length of the list then.
pub fn displace_blockers(
    tables: &Tables<'_>,
    index: &Index<'_, '_>,
    list_rows: &mut [usize],
    list_values: &mut [usize],
    listed: usize,
    row: usize,
    value: usize,
) -> usize
    requires indexed { IsIndexed tables.now index.now }
    requires lifted { Lifted (of_tables board tables.now) true (front listed list_rows.old list_values.old) }
    requires value_value { legal_at tables.now.shape tables.now.marks.now row value ≡ true }
    requires in_bounds { (128 ≤ length list_rows.old) × (length list_rows.old ≡ length list_values.old) × (listed ≤ length list_rows.old) }
    ensures { Standing listed list_rows.old list_values.old list_rows.new list_values.new result
        (displaced (the_board tables.now) true (the_roster tables.now index.now) row value (front listed list_rows.old list_values.old)) }
{
    let holders = rows::holders_of(tables, index, row, value);
    let below = rows::rows_below(tables, index, row, value);
    let above = rows::rows_above(tables, index, row, value);
    let mut end = listed;
    let mut other = blocker::first_blocker(
        tables,
        &list_rows[..listed],
        true,
        row,
        0,
        holders,
        below,
        above,
    );
    // No `for`: the next row is looked for, and not counted.
    while other < tables.shape.rows {
        list_rows[end] = other;
        list_values[end] = EMPTY;
        end += 1;
        other = blocker::first_blocker(
            tables,
            &list_rows[..listed],
            true,
            row,
            other + 1,
            holders,
            below,
            above,
        );
    }
    end
}
