// The order that windows are cut from, the cursor over its windows, step by step and walked in one
// call, and the ejection of one.
ghost use Rattle.std.specs.Prelude.{◌≡◌};
ghost use Rattle.assignment_order.specs.Ordered.{ordering};
ghost use Rattle.window_kinds.specs.Kinds.{rematching, cursor, new_cursor};
ghost use Rattle.assignment_cycle.specs.Stepping.{stepping};
ghost use Rattle.assignment_walk.specs.Runs.{walking};
ghost use Rattle.assignment_ejection.specs.Ejected.{ejecting};
ghost use Rattle.search_codes.specs.Codes.{limited};
ghost use Rattle.engine.specs.Asked.{shaped};
ghost use Rattle.engine.specs.Told.{ordered, order_told, begun, new_cursor_told, walked, step_told, traversed, walk_told, lifted, ejection_told};

#[unsafe(no_mangle)]
pub extern "C" fn turepawon_assigned_entities_by_position(
    rows: usize,
    values: usize,
    edge_rule: u8,
    marks: &[u8],
    keys: &[usize],
    ranks: &[i64],
    records: &[usize],
    members: &[usize],
    offset: usize,
    out_rows: &mut [usize],
    count: &mut usize,
) -> u8
    ensures { ordered result count.new out_rows.new
        ≡ order_told (ordering (shaped rows values edge_rule) marks.now keys.now ranks.now records.now members.now offset out_rows.old) count.old }
{
    engine::windows::turepawon_assigned_entities_by_position(
        rows, values, edge_rule, marks, keys, ranks, records, members, offset, out_rows, count,
    )
}

#[unsafe(no_mangle)]
pub extern "C" fn turepawon_new_cursor(
    count: usize,
    size: usize,
    start: &mut usize,
    length: &mut usize,
    variant: &mut usize,
    longest: &mut usize,
) -> u8
    ensures { begun result (cursor start.new length.new variant.new longest.new)
        ≡ new_cursor_told (new_cursor rematching count size) (cursor start.old length.old variant.old longest.old) }
{
    engine::windows::turepawon_new_cursor(count, size, start, length, variant, longest)
}

#[unsafe(no_mangle)]
pub extern "C" fn turepawon_next_augmenting_rematch(
    rows: usize,
    values: usize,
    edge_rule: u8,
    marks: &[u8],
    keys: &[usize],
    ranks: &[i64],
    records: &[usize],
    members: &[usize],
    order: &[usize],
    start: &mut usize,
    length: &mut usize,
    variant: &mut usize,
    longest: &mut usize,
    out_rows: &mut [usize],
    out_values: &mut [usize],
    moved: &mut u8,
    count: &mut usize,
) -> u8
    ensures { walked result moved.new count.new (cursor start.new length.new variant.new longest.new) out_rows.new out_values.new
        ≡ step_told (stepping (shaped rows values edge_rule) marks.now keys.now ranks.now records.now members.now order.now
        (cursor start.old length.old variant.old longest.old) out_rows.old out_values.old) moved.old count.old }
{
    engine::windows::turepawon_next_augmenting_rematch(
        rows, values, edge_rule, marks, keys, ranks, records, members, order, start, length,
        variant, longest, out_rows, out_values, moved, count,
    )
}

#[unsafe(no_mangle)]
pub extern "C" fn turepawon_walk_augmenting_rematch(
    rows: usize,
    values: usize,
    edge_rule: u8,
    marks: &[u8],
    keys: &[usize],
    ranks: &[i64],
    records: &[usize],
    members: &[usize],
    order: &[usize],
    start: &mut usize,
    length: &mut usize,
    variant: &mut usize,
    longest: &mut usize,
    out_rows: &mut [usize],
    out_values: &mut [usize],
    out_lengths: &mut [usize],
    done: &mut u8,
    moves: &mut usize,
    edits: &mut usize,
) -> u8
    ensures { traversed result done.new moves.new edits.new (cursor start.new length.new
        variant.new longest.new) out_rows.new out_values.new out_lengths.new
        ≡ walk_told (walking (shaped rows values edge_rule) marks.now keys.now ranks.now records.now members.now order.now
        (cursor start.old length.old variant.old longest.old) out_rows.old out_values.old out_lengths.old) done.old moves.old edits.old }
{
    engine::windows::turepawon_walk_augmenting_rematch(
        rows,
        values,
        edge_rule,
        marks,
        keys,
        ranks,
        records,
        members,
        order,
        start,
        length,
        variant,
        longest,
        out_rows,
        out_values,
        out_lengths,
        done,
        moves,
        edits,
    )
}

#[unsafe(no_mangle)]
pub extern "C" fn turepawon_ejection_reinsert_edits(
    rows: usize,
    values: usize,
    edge_rule: u8,
    marks: &[u8],
    keys: &[usize],
    ranks: &[i64],
    records: &[usize],
    members: &[usize],
    window: &[usize],
    attempt: usize,
    limit: usize,
    out_rows: &mut [usize],
    out_values: &mut [usize],
    listed: &mut u8,
    count: &mut usize,
) -> u8
    ensures { lifted result listed.new count.new out_rows.new out_values.new
        ≡ ejection_told (ejecting (shaped rows values edge_rule) marks.now keys.now ranks.now records.now
        members.now window.now attempt (limited limit) out_rows.old out_values.old) listed.old count.old }
{
    engine::windows::turepawon_ejection_reinsert_edits(
        rows, values, edge_rule, marks, keys, ranks, records, members, window, attempt, limit,
        out_rows, out_values, listed, count,
    )
}
