// Lists given back where they pass the final test: what the walks over windows and the search by path end
// with. docs/RULES.md, 6.7, 8.4, 9.5 and 11.13.

#![tactic(auto)]

ghost use Rattle.std.specs.Prelude.{◌≡◌, length};
ghost use Rattle.basics.specs.Edits.{edits};
ghost use Rattle.outputs.specs.Giving.{Roomy, GivenBack};
ghost use Rattle.assignment_tables.specs.Tables.{the_board};
ghost use Rattle.assignment_index.specs.Index.{Indexed, the_roster, IsIndexed};
ghost use Rattle.given_lists.specs.Passing.{passing, move_in};

use assignment_index::Index;
use assignment_overlay::test;
use assignment_tables::{Shape, Tables};

// Gives the list back if it passes the final test: how many edits it has, or 0.
pub fn give_back(
    tables: &Tables<'_>,
    index: &Index<'_, '_>,
    list_rows: &[usize],
    list_values: &[usize],
    out_rows: &mut [usize],
    out_values: &mut [usize],
) -> usize
    requires indexed { IsIndexed tables.now index.now }
    requires list_rows_len { length list_rows.now ≡ length list_values.now }
    requires roomy { Roomy tables.now.shape.rows out_rows.old out_values.old }
    ensures { GivenBack (passing (the_board tables.now) (the_roster tables.now index.now) (edits list_rows.now list_values.now))
        out_rows.old out_values.old out_rows.new out_values.new result }
{
    if !test::final_test(tables, index, list_rows, list_values) {
        return 0;
    }
    outputs::copy_front(list_rows, out_rows);
    outputs::copy_front(list_values, out_values);
    list_rows.len()
}

// Gives the list back if it has an edit and passes the final test: how many edits it has, or 0.
pub fn give_edited(
    tables: &Tables<'_>,
    index: &Index<'_, '_>,
    list_rows: &[usize],
    list_values: &[usize],
    out_rows: &mut [usize],
    out_values: &mut [usize],
) -> usize
    requires indexed { IsIndexed tables.now index.now }
    requires list_rows_len { length list_rows.now ≡ length list_values.now }
    requires roomy { Roomy tables.now.shape.rows out_rows.old out_values.old }
    ensures { GivenBack (move_in (the_board tables.now) (the_roster tables.now index.now) (edits list_rows.now list_values.now))
        out_rows.old out_values.old out_rows.new out_values.new result }
{
    if list_rows.len() < 1 {
        return 0;
    }
    give_back(tables, index, list_rows, list_values, out_rows, out_values)
}
