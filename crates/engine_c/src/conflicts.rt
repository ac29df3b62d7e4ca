// The conflicts of a roster.
ghost use Rattle.std.specs.Prelude.{◌≡◌};
ghost use Rattle.std.specs.Result.{result_unwrap_or};
ghost use Rattle.refusals.specs.Codes.{code};
ghost use Rattle.assignment_conflicts.specs.Listing.{listing};
ghost use Rattle.engine.specs.Asked.{shaped};

#[unsafe(no_mangle)]
pub extern "C" fn turepawon_capacity_conflicts(
    rows: usize,
    values: usize,
    edge_rule: u8,
    marks: &[u8],
    keys: &[usize],
    ranks: &[i64],
    records: &[usize],
    members: &[usize],
    out_keys: &mut [usize],
    out_rows: &mut [usize],
    count: &mut usize,
) -> u8
    ensures value { result ≡ code (listing (shaped rows values edge_rule) marks.now keys.now ranks.now records.now members.now out_keys.old out_rows.old).answer }
    ensures count_value { count.new
        ≡ result_unwrap_or (listing (shaped rows values edge_rule) marks.now keys.now ranks.now
        records.now members.now out_keys.old out_rows.old).answer count.old }
    ensures out_keys_value { out_keys.new ≡ (listing (shaped rows values edge_rule) marks.now keys.now ranks.now records.now members.now out_keys.old out_rows.old).keys }
    ensures out_rows_value { out_rows.new ≡ (listing (shaped rows values edge_rule) marks.now keys.now ranks.now records.now members.now out_keys.old out_rows.old).rows }
{
    engine::conflicts::turepawon_capacity_conflicts(
        rows, values, edge_rule, marks, keys, ranks, records, members, out_keys, out_rows, count,
    )
}
