// Trying a row and walking its blocker's alternatives call each other, the depth falling.
// The state is the list and its length, the marks of the rows being tried, and the asks: nothing is
// ever undone, since a caller that goes on from its own length has forgotten the longer one.
ghost use Rattle.std.specs.Prelude.{◌+◌, ◌*◌, ◌≤◌, ◌<◌, ◌^◌, length, Some};
ghost use Rattle.assignment_tables.specs.Tables.{board, the_board, of_tables};
ghost use Rattle.assignment_index.specs.Index.{the_roster};
ghost use Rattle.search_rules.specs.Search.{try_row};
ghost use Rattle.search_rules.specs.Ceiling.{try_ceiling};
ghost use Rattle.search_rules.specs.Lifted.{Lifted};
ghost use Rattle.path_steps.specs.Lists.{front};
ghost use Rattle.path_memory.specs.Memory.{Recalls};
ghost use Rattle.word_bits.specs.Marks.{marked};
ghost use Rattle.path_entry.specs.Trails.{terms, the_list, Roomy, Tells};
ghost use Rattle.path_walk.specs.Walks.{walking, Searchable, IsSearchable};

use crate::enter;
use assignment_index::{Index, columns};
use assignment_tables::candidates::candidate_values;
use assignment_tables::{Shape, Tables};
use path_entry::{Entered, Trail, leaves};
use path_memory::hopeless;
use word_bits::{Visiting, visited};

// Tries a row at a depth.
#[cycle(try_row_walk_alternatives)]
pub fn try_row(
    tables: &Tables<'_>,
    index: &Index<'_, '_>,
    displace: bool,
    limit: usize,
    budget: usize,
    visiting: Visiting,
    depth: usize,
    memo: &mut [u8],
    list_rows: &mut [usize],
    list_values: &mut [usize],
    listed: usize,
    row: usize,
    value: usize,
    asks: usize,
) -> Trail
    requires searchable { IsSearchable tables.now index.now }
    requires lifted { Lifted (of_tables board tables.now) displace (front listed list_rows.old list_values.old) }
    requires roomy { Roomy listed list_rows.old list_values.old }
    requires depth_bound { (depth ≤ 8) × (asks + try_ceiling 64 depth < 2 ^ 64) }
    requires recalls { of_tables Recalls tables.now index.now.records.now displace memo.old }
    ensures tells { Tells (try_row (the_board tables.now) (the_roster tables.now index.now) (terms displace (Some limit) budget) depth (marked visiting)
        row value (the_list listed list_rows list_values) asks) listed (tables.now.shape.rows + depth + 1) list_rows list_values result }
    ensures recalls_2 { of_tables Recalls tables.now index.now.records.now displace memo.new }
{
    match enter::enter(
        tables,
        index,
        displace,
        budget,
        visiting,
        depth,
        memo,
        list_rows,
        list_values,
        listed,
        row,
        value,
        asks,
    ) {
        Entered::Settled(trail) => trail,
        Entered::Stuck(stuck) => walk_alternatives(
            tables,
            index,
            displace,
            limit,
            budget,
            visited::visit(visiting, row),
            depth - 1,
            memo,
            list_rows,
            list_values,
            stuck.length,
            row,
            value,
            stuck.blocker,
            candidate_values(tables, stuck.blocker, Some(limit)),
            columns::held_value(tables.shape.rows, index.records, stuck.blocker),
            stuck.asks,
        ),
    }
}

// Tries the alternatives of a row's blocker in order, but for the value that it holds, each from
// the same list.
#[cycle(try_row_walk_alternatives)]
fn walk_alternatives(
    tables: &Tables<'_>,
    index: &Index<'_, '_>,
    displace: bool,
    limit: usize,
    budget: usize,
    visiting: Visiting,
    depth: usize,
    memo: &mut [u8],
    list_rows: &mut [usize],
    list_values: &mut [usize],
    listed: usize,
    row: usize,
    value: usize,
    blocker: usize,
    alternatives: &[u8],
    held: usize,
    mut asked: usize,
) -> Trail
    requires searchable { IsSearchable tables.now index.now }
    requires lifted { Lifted (of_tables board tables.now) displace (front listed list_rows.old list_values.old) }
    requires roomy { Roomy listed list_rows.old list_values.old }
    requires alternatives_len_bound { length alternatives.now ≤ 64 }
    requires depth_bound { (depth ≤ 7) × (asked + 64 * (1 + try_ceiling 64 depth) < 2 ^ 64) }
    requires recalls { of_tables Recalls tables.now index.now.records.now displace memo.old }
    ensures tells { Tells (walking (the_board tables.now) (the_roster tables.now index.now) (terms displace (Some limit) budget) depth (marked visiting)
        row value blocker (the_list listed list_rows list_values) held alternatives.now asked)
        listed (tables.now.shape.rows + depth + 2) list_rows list_values result }
    ensures recalls_2 { of_tables Recalls tables.now index.now.records.now displace memo.new }
{
    for i in 0..alternatives.len() {
        asked += 1; // before each alternative, the held value too
        if budget < asked {
            return Trail::Missed(asked);
        }
        let other = alternatives[i] as usize;
        if other == held {
            continue;
        }
        if hopeless(tables, index, displace, memo, depth, blocker, other) {
            asked += 1;
            continue;
        }
        let tried = try_row(
            tables,
            index,
            displace,
            limit,
            budget,
            visiting,
            depth,
            memo,
            list_rows,
            list_values,
            listed,
            blocker,
            other,
            asked,
        );
        match leaves::close_path(tables, index, list_rows, list_values, tried, row, value) {
            Trail::Missed(asks) => asked = asks,
            Trail::Found(path) => return Trail::Found(path),
        }
    }
    Trail::Missed(asked)
}
