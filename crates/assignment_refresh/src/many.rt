// Listed rows of the lent index, taken out and put in.
ghost use Rattle.std.specs.Prelude.{◌≡◌, true};
ghost use Rattle.basics.specs.Edits.{edits, all_rows, Listed};
ghost use Rattle.rules.specs.Roster.{after};
ghost use Rattle.assignment_tables.specs.Tables.{the_board, of_tables};
ghost use Rattle.assignment_index.specs.Index.{board_records, members_of, roster_in, Indexed};
ghost use Rattle.assignment_refresh.specs.Refresh.{vacated, all_vacant};

use assignment_tables::{Shape, Tables};

// Takes every listed row out of the index: it holds nothing.
fn take_all(tables: &Tables<'_>, records: &mut [usize], members: &mut [usize], list_rows: &[usize])
    requires indexed { of_tables Indexed tables.now records.old members.old }
    requires list_rows_value { all_rows tables.now.shape.rows list_rows.now ≡ true }
    ensures records_value { records.new ≡ board_records (the_board tables.now) (vacated (roster_in tables.now.shape.rows records.old) list_rows.now) }
    ensures members_value { members.new ≡ members_of tables.now.shape.rows records.new }
{
    for taken in 0..list_rows.len() {
        index_rows::take_out(tables, records, members, list_rows[taken]);
    }
}

// Puts every listed row, none of which holds anything, into the index with the value beside it.
fn put_all(
    tables: &Tables<'_>,
    records: &mut [usize],
    members: &mut [usize],
    list_rows: &[usize],
    list_values: &[usize],
)
    requires indexed { of_tables Indexed tables.now records.old members.old }
    requires listed { Listed tables.now.shape.rows list_rows.now list_values.now }
    requires list_rows_value { all_vacant (roster_in tables.now.shape.rows records.old) list_rows.now ≡ true }
    ensures records_value { records.new
        ≡ board_records (the_board tables.now) (after (roster_in tables.now.shape.rows records.old) (edits list_rows.now list_values.now)) }
    ensures members_value { members.new ≡ members_of tables.now.shape.rows records.new }
{
    for i in 0..list_rows.len() {
        index_rows::put_in(tables, records, members, list_rows[i], list_values[i]);
    }
}

// Gives every listed row the value beside it: every one is taken out before any is put in.
pub fn refresh(
    tables: &Tables<'_>,
    records: &mut [usize],
    members: &mut [usize],
    list_rows: &[usize],
    list_values: &[usize],
)
    requires indexed { of_tables Indexed tables.now records.old members.old }
    requires listed { Listed tables.now.shape.rows list_rows.now list_values.now }
    ensures records_value { records.new
        ≡ board_records (the_board tables.now) (after (roster_in tables.now.shape.rows records.old) (edits list_rows.now list_values.now)) }
    ensures members_value { members.new ≡ members_of tables.now.shape.rows records.new }
{
    take_all(tables, records, members, list_rows);
    put_all(tables, records, members, list_rows, list_values);
}
