// The windows of an order whose rows are lifted out and put back, walked step by step.
ghost use Rattle.std.specs.Prelude.{◌≡◌};
ghost use Rattle.window_kinds.specs.Kinds.{reinserting, cursor, new_cursor};
ghost use Rattle.ejection_cycle.specs.Reinserting.{reinsert_stepping};
ghost use Rattle.search_codes.specs.Codes.{limited};
ghost use Rattle.engine.specs.Asked.{shaped};
ghost use Rattle.engine.specs.Told.{begun, new_cursor_told, walked, step_told};

#[unsafe(no_mangle)]
pub extern "C" fn turepawon_new_ejection_cursor(
    count: usize,
    size: usize,
    start: &mut usize,
    length: &mut usize,
    variant: &mut usize,
    longest: &mut usize,
) -> u8
    ensures { begun result (cursor start.new length.new variant.new longest.new)
        ≡ new_cursor_told (new_cursor reinserting count size) (cursor start.old length.old variant.old longest.old) }
{
    engine::ejections::turepawon_new_ejection_cursor(count, size, start, length, variant, longest)
}

#[unsafe(no_mangle)]
pub extern "C" fn turepawon_next_ejection_reinsert(
    rows: usize,
    values: usize,
    edge_rule: u8,
    marks: &[u8],
    keys: &[usize],
    ranks: &[i64],
    records: &[usize],
    members: &[usize],
    order: &[usize],
    start: &mut usize,
    length: &mut usize,
    variant: &mut usize,
    longest: &mut usize,
    limit: usize,
    out_rows: &mut [usize],
    out_values: &mut [usize],
    moved: &mut u8,
    count: &mut usize,
) -> u8
    ensures { walked result moved.new count.new (cursor start.new length.new variant.new longest.new) out_rows.new out_values.new
        ≡ step_told (reinsert_stepping (shaped rows values edge_rule) marks.now keys.now ranks.now records.now members.now order.now (limited limit)
        (cursor start.old length.old variant.old longest.old) out_rows.old out_values.old) moved.old count.old }
{
    engine::ejections::turepawon_next_ejection_reinsert(
        rows, values, edge_rule, marks, keys, ranks, records, members, order, start, length,
        variant, longest, limit, out_rows, out_values, moved, count,
    )
}
