// The search by path, and the most asks that it can make.
ghost use Rattle.std.specs.Prelude.{◌≡◌};
ghost use Rattle.assignment_tables.specs.Cells.{is_set};
ghost use Rattle.search_ceiling.specs.Answer.{ceiling_answer};
ghost use Rattle.search_ceiling.specs.Codes.{bounded, ceiling_told};
ghost use Rattle.assignment_path.specs.Searching.{searching};
ghost use Rattle.search_codes.specs.Codes.{limited};
ghost use Rattle.engine.specs.Asked.{shaped};
ghost use Rattle.engine.specs.Told.{sought, search_told};

use assignment_index::Index;
use assignment_path::entry;
use assignment_tables::{Shape, Tables};
use refusals::codes::code;

// Looks for a move that gives the row the value: `found` becomes 1 and `count` the number of its
// edits, or `found` becomes 0; `asks` becomes the number of asks in both cases. `displacement` is a
// flag; a `limit` of 2^64 - 1 offers every candidate. What is not found is left as it was; a refusal
// leaves all.
pub fn turepawon_assignment_move_for_entity_value(
    rows: usize,
    values: usize,
    edge_rule: u8,
    marks: &[u8],
    keys: &[usize],
    ranks: &[i64],
    records: &[usize],
    members: &[usize],
    row: usize,
    value: usize,
    depth: usize,
    displacement: u8,
    limit: usize,
    budget: usize,
    out_rows: &mut [usize],
    out_values: &mut [usize],
    found: &mut u8,
    asks: &mut usize,
    count: &mut usize,
) -> u8
    ensures { sought result found.new asks.new count.new out_rows.new out_values.new
        ≡ search_told (searching (shaped rows values edge_rule) marks.now keys.now ranks.now records.now members.now row
        value depth (is_set displacement) (limited limit) budget out_rows.old out_values.old) found.old asks.old count.old }
{
    let tables = Tables {
        shape: Shape {
            rows,
            values,
            edge_rule,
        },
        marks,
        keys,
        ranks,
    };
    let index = Index { records, members };
    let offered = search_codes::limited(limit);
    let displacing = search_codes::displaces(displacement);
    let search = entry::assignment_move_for_entity_value(
        &tables, &index, row, value, depth, displacing, offered, budget, out_rows, out_values,
    );
    *found = search_codes::search_flag(search, *found);
    *asks = search_codes::search_asks(search, *asks);
    *count = search_codes::search_count(search, *count);
    code(search)
}

// Writes the most asks that a search can make at the depth, where no row offers more than so many
// candidates. A refusal leaves the number as it was.
pub fn turepawon_ask_ceiling(candidates: usize, depth: usize, most: &mut usize) -> u8
    ensures { bounded result most.new ≡ ceiling_told (ceiling_answer candidates depth) most.old }
{
    search_ceiling::codes::ceiling_told(candidates, depth, most)
}
