// The tables and the index: checked, built, refreshed.
ghost use Rattle.std.specs.Prelude.{◌≡◌, true};
ghost use Rattle.refusals.specs.Codes.{code};
ghost use Rattle.assignment_tables.specs.Refusal.{tables_refusal};
ghost use Rattle.assignment_state.specs.Admission.{admission};
ghost use Rattle.assignment_updates.specs.Refresh.{refreshed, built};
ghost use Rattle.engine.specs.Asked.{shaped};

#[unsafe(no_mangle)]
pub extern "C" fn turepawon_tables_refusal(
    rows: usize,
    values: usize,
    edge_rule: u8,
    marks: &[u8],
    keys: &[usize],
    ranks: &[i64],
) -> u8
    ensures { result ≡ code (tables_refusal (shaped rows values edge_rule) marks.now keys.now ranks.now true) }
{
    engine::index::turepawon_tables_refusal(rows, values, edge_rule, marks, keys, ranks)
}

#[unsafe(no_mangle)]
pub extern "C" fn turepawon_admit(
    rows: usize,
    values: usize,
    edge_rule: u8,
    marks: &[u8],
    keys: &[usize],
    ranks: &[i64],
    records: &[usize],
    members: &[usize],
) -> u8
    ensures { result ≡ code (admission (shaped rows values edge_rule) marks.now keys.now ranks.now records.now members.now true) }
{
    engine::index::turepawon_admit(
        rows, values, edge_rule, marks, keys, ranks, records, members,
    )
}

#[unsafe(no_mangle)]
pub extern "C" fn turepawon_build_index(
    rows: usize,
    values: usize,
    edge_rule: u8,
    marks: &[u8],
    keys: &[usize],
    ranks: &[i64],
    roster: &[usize],
    records: &mut [usize],
    members: &mut [usize],
) -> u8
    ensures value { result ≡ code (built (shaped rows values edge_rule) marks.now keys.now ranks.now roster.now records.old members.old).answer }
    ensures records_value { records.new ≡ (built (shaped rows values edge_rule) marks.now keys.now ranks.now roster.now records.old members.old).records }
    ensures members_value { members.new ≡ (built (shaped rows values edge_rule) marks.now keys.now ranks.now roster.now records.old members.old).members }
{
    engine::index::turepawon_build_index(
        rows, values, edge_rule, marks, keys, ranks, roster, records, members,
    )
}

#[unsafe(no_mangle)]
pub extern "C" fn turepawon_refresh_rows(
    rows: usize,
    values: usize,
    edge_rule: u8,
    marks: &[u8],
    keys: &[usize],
    ranks: &[i64],
    records: &mut [usize],
    members: &mut [usize],
    list_rows: &[usize],
    list_values: &[usize],
) -> u8
    ensures value { result ≡ code (refreshed (shaped rows values edge_rule) marks.now keys.now ranks.now records.old members.old list_rows.now list_values.now).answer }
    ensures records_value { records.new ≡ (refreshed (shaped rows values edge_rule) marks.now keys.now ranks.now records.old members.old list_rows.now list_values.now).records }
    ensures members_value { members.new ≡ (refreshed (shaped rows values edge_rule) marks.now keys.now ranks.now records.old members.old list_rows.now list_values.now).members }
{
    engine::index::turepawon_refresh_rows(
        rows,
        values,
        edge_rule,
        marks,
        keys,
        ranks,
        records,
        members,
        list_rows,
        list_values,
    )
}
