// The search by path, and the most asks that it can make.
ghost use Rattle.std.specs.Prelude.{◌≡◌};
ghost use Rattle.assignment_tables.specs.Cells.{is_set};
ghost use Rattle.search_ceiling.specs.Answer.{ceiling_answer};
ghost use Rattle.search_ceiling.specs.Codes.{bounded, ceiling_told};
ghost use Rattle.assignment_path.specs.Searching.{searching};
ghost use Rattle.search_codes.specs.Codes.{limited};
ghost use Rattle.engine.specs.Asked.{shaped};
ghost use Rattle.engine.specs.Told.{sought, search_told};

#[unsafe(no_mangle)]
pub extern "C" fn turepawon_assignment_move_for_entity_value(
    rows: usize,
    values: usize,
    edge_rule: u8,
    marks: &[u8],
    keys: &[usize],
    ranks: &[i64],
    records: &[usize],
    members: &[usize],
    row: usize,
    value: usize,
    depth: usize,
    displacement: u8,
    limit: usize,
    budget: usize,
    out_rows: &mut [usize],
    out_values: &mut [usize],
    found: &mut u8,
    asks: &mut usize,
    count: &mut usize,
) -> u8
    ensures { sought result found.new asks.new count.new out_rows.new out_values.new
        ≡ search_told (searching (shaped rows values edge_rule) marks.now keys.now ranks.now records.now members.now row
        value depth (is_set displacement) (limited limit) budget out_rows.old out_values.old) found.old asks.old count.old }
{
    engine::search::turepawon_assignment_move_for_entity_value(
        rows,
        values,
        edge_rule,
        marks,
        keys,
        ranks,
        records,
        members,
        row,
        value,
        depth,
        displacement,
        limit,
        budget,
        out_rows,
        out_values,
        found,
        asks,
        count,
    )
}

#[unsafe(no_mangle)]
pub extern "C" fn turepawon_ask_ceiling(candidates: usize, depth: usize, most: &mut usize) -> u8
    ensures { bounded result most.new ≡ ceiling_told (ceiling_answer candidates depth) most.old }
{
    engine::search::turepawon_ask_ceiling(candidates, depth, most)
}
