// The search by path, for anyone who lends slices.
ghost use Rattle.std.specs.Prelude.{◌≡◌, ◌≤◌, length};
ghost use Rattle.assignment_tables.specs.Tables.{the_board, of_tables};
ghost use Rattle.assignment_index.specs.Index.{the_roster, of_lent, roster_in};
ghost use Rattle.search_rules.specs.Search.{holds_already, discover, search};
ghost use Rattle.path_memory.specs.Memory.{Recalls};
ghost use Rattle.path_entry.specs.Trails.{Roomy};
ghost use Rattle.path_walk.specs.Walks.{Searchable, IsSearchable};
ghost use Rattle.assignment_path.specs.Searching.{request, Discovered, leaves, replying, searching};

use assignment_index::{Index, columns};
use assignment_state::admit;
use assignment_tables::{EMPTY, Shape, Tables};
use given_lists::give_back;
use offered_values::most_offered;
use path_entry::Trail;
use path_walk::walk;
use refusals::Refusal;
use search_codes::Search;
use word_bits::visited;

// The row holds the value already.
fn holds_already(shape: Shape, records: &[usize], row: usize, value: usize) -> bool
    requires { shape.rows ≤ length records.now }
    ensures { result ≡ holds_already (roster_in shape.rows records.now) row value }
{
    if value == EMPTY {
        return false;
    }
    columns::value_of(shape.rows, records, row) == value
}

// One ask at entry, one before the first try.
fn discover_with(
    tables: &Tables<'_>,
    index: &Index<'_, '_>,
    row: usize,
    value: usize,
    depth: usize,
    displace: bool,
    limit: Option<usize>,
    budget: usize,
    memo: &mut [u8],
    list_rows: &mut [usize],
    list_values: &mut [usize],
) -> Trail
    requires searchable { IsSearchable tables.now index.now }
    requires roomy { Roomy 0 list_rows.old list_values.old }
    requires depth_bound { depth ≤ 8 }
    requires recalls { of_tables Recalls tables.now index.now.records.now displace memo.old }
    ensures { Discovered (discover (the_board tables.now) (the_roster tables.now index.now) (request row value depth displace limit budget))
        list_rows.new list_values.new result }
{
    if budget < 1 {
        return Trail::Missed(1);
    }
    if holds_already(tables.shape, index.records, row, value) {
        return Trail::Missed(1);
    }
    if budget < 2 {
        return Trail::Missed(2);
    }
    let visiting = visited::none_visited();
    walk::try_row(
        tables,
        index,
        displace,
        most_offered(limit),
        budget,
        visiting,
        depth,
        memo,
        list_rows,
        list_values,
        0,
        row,
        value,
        2,
    )
}

// A search of depth 2 and more asks again what it asked before, and has a memory; to make one for a
// shorter search costs more than it saves.
fn discover(
    tables: &Tables<'_>,
    index: &Index<'_, '_>,
    row: usize,
    value: usize,
    depth: usize,
    displace: bool,
    limit: Option<usize>,
    budget: usize,
    list_rows: &mut [usize],
    list_values: &mut [usize],
) -> Trail
    requires searchable { IsSearchable tables.now index.now }
    requires roomy { Roomy 0 list_rows.old list_values.old }
    requires depth_bound { depth ≤ 8 }
    ensures { Discovered (discover (the_board tables.now) (the_roster tables.now index.now) (request row value depth displace limit budget))
        list_rows.new list_values.new result }
{
    if depth < 2 {
        let mut none = [0u8; 1];
        return discover_with(
            tables,
            index,
            row,
            value,
            depth,
            displace,
            limit,
            budget,
            &mut none[..0],
            list_rows,
            list_values,
        );
    }
    let mut memo = path_memory::fresh_memory();
    discover_with(
        tables,
        index,
        row,
        value,
        depth,
        displace,
        limit,
        budget,
        &mut memo,
        list_rows,
        list_values,
    )
}

// Room for the longest list: rows + depth + 1.
fn empty_list() -> [usize; 137] {
    [0usize; 137]
}

// The search on slices that were admitted. The final test of a found list is no dead weight: a deeper
// step may have moved the very row that the search began with, or a row that may not be empty;
// whoever applies the move needs to know that it did not.
pub fn search_path(
    tables: &Tables<'_>,
    index: &Index<'_, '_>,
    row: usize,
    value: usize,
    depth: usize,
    displace: bool,
    limit: Option<usize>,
    budget: usize,
    out_rows: &mut [usize],
    out_values: &mut [usize],
) -> Result<Search, Refusal>
    requires searchable { IsSearchable tables.now index.now }
    requires depth_bound { depth ≤ 8 }
    requires rows_in_bounds { (tables.now.shape.rows ≤ length out_rows.old) × (tables.now.shape.rows ≤ length out_values.old) }
    ensures { leaves result out_rows.new out_values.new
        ≡ replying (search (the_board tables.now) (the_roster tables.now index.now) (request row value depth displace limit budget)) out_rows.old out_values.old }
{
    let mut list_rows = empty_list();
    let mut list_values = empty_list();
    let trail = discover(
        tables,
        index,
        row,
        value,
        depth,
        displace,
        limit,
        budget,
        &mut list_rows,
        &mut list_values,
    );
    let path = match trail {
        Trail::Missed(asks) => return Ok(Search::NoMove(asks)),
        Trail::Found(path) => path,
    };
    let length = path.length;
    let edits = give_back(
        tables,
        index,
        &list_rows[..length],
        &list_values[..length],
        out_rows,
        out_values,
    );
    if edits == 0 {
        return Ok(Search::NoMove(path.asks));
    }
    Ok(Search::Move(edits, path.asks))
}

pub fn assignment_move_for_entity_value(
    tables: &Tables<'_>,
    index: &Index<'_, '_>,
    row: usize,
    value: usize,
    depth: usize,
    displace: bool,
    limit: Option<usize>,
    budget: usize,
    out_rows: &mut [usize],
    out_values: &mut [usize],
) -> Result<Search, Refusal>
    ensures { leaves result out_rows.new out_values.new
        ≡ of_lent searching tables.now index.now row value depth displace limit budget out_rows.old out_values.old }
{
    admit::admit(tables, index, true)?;
    if 8 < depth {
        return Err(Refusal::Depth);
    }
    if out_rows.len() < tables.shape.rows {
        return Err(Refusal::Room);
    }
    if out_values.len() < tables.shape.rows {
        return Err(Refusal::Room);
    }
    search_path(
        tables, index, row, value, depth, displace, limit, budget, out_rows, out_values,
    )
}
