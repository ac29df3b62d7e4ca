// What trying a row comes to before its blocker is asked to make way.
ghost use Rattle.std.specs.Prelude.{◌+◌, ◌<◌, ◌^◌};
ghost use Rattle.assignment_tables.specs.Tables.{board, the_board, of_tables};
ghost use Rattle.assignment_index.specs.Index.{Indexed, the_roster, IsIndexed};
ghost use Rattle.search_rules.specs.Lifted.{Lifted};
ghost use Rattle.path_steps.specs.Lists.{front};
ghost use Rattle.path_memory.specs.Memory.{Recalls};
ghost use Rattle.word_bits.specs.Marks.{marked};
ghost use Rattle.path_entry.specs.Trails.{Roomy, Enters};

use assignment_index::Index;
use assignment_tables::{Shape, Tables};
use path_entry::leaves::follow;
use path_entry::{Entered, Trail};
use word_bits::Visiting;

// Stops over the budget, or follows the prospect, remembered or judged.
pub fn enter(
    tables: &Tables<'_>,
    index: &Index<'_, '_>,
    displace: bool,
    budget: usize,
    visiting: Visiting,
    depth: usize,
    memo: &mut [u8],
    list_rows: &mut [usize],
    list_values: &mut [usize],
    listed: usize,
    row: usize,
    value: usize,
    asks: usize,
) -> Entered
    requires indexed { IsIndexed tables.now index.now }
    requires lifted { Lifted (of_tables board tables.now) displace (front listed list_rows.old list_values.old) }
    requires roomy { Roomy listed list_rows.old list_values.old }
    requires asks_bound { asks + 1 < 2 ^ 64 }
    requires recalls { of_tables Recalls tables.now index.now.records.now displace memo.old }
    ensures enters { Enters (the_board tables.now) (the_roster tables.now index.now) displace budget depth (marked visiting)
        row value asks listed list_rows list_values result }
    ensures recalls_2 { of_tables Recalls tables.now index.now.records.now displace memo.new }
{
    if budget < asks + 1 {
        return Entered::Settled(Trail::Missed(asks + 1));
    }
    let prospect = path_memory::recall(tables, index, displace, memo, row, value);
    follow(
        tables,
        index,
        displace,
        budget,
        visiting,
        depth,
        list_rows,
        list_values,
        listed,
        row,
        value,
        asks,
        prospect,
    )
}
