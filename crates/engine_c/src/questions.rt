// The questions that are answered yes or no. `answer` becomes 1 or 0; a refusal leaves it as it was.
ghost use Rattle.std.specs.Prelude.{◌≡◌};
ghost use Rattle.refusals.specs.Codes.{code, yes_flag};
ghost use Rattle.assignment_overlay.specs.Verdicts.{final_verdict, reinsert_verdict};
ghost use Rattle.sound_rosters.specs.SoundVerdict.{sound_verdict};
ghost use Rattle.engine.specs.Asked.{shaped};

#[unsafe(no_mangle)]
pub extern "C" fn turepawon_assignment_feasible_after_edits(
    rows: usize,
    values: usize,
    edge_rule: u8,
    marks: &[u8],
    keys: &[usize],
    ranks: &[i64],
    records: &[usize],
    members: &[usize],
    list_rows: &[usize],
    list_values: &[usize],
    answer: &mut u8,
) -> u8
    ensures value { result ≡ code (final_verdict (shaped rows values edge_rule) marks.now keys.now ranks.now records.now members.now list_rows.now list_values.now) }
    ensures answer_value { answer.new
        ≡ yes_flag (final_verdict (shaped rows values edge_rule) marks.now keys.now
        ranks.now records.now members.now list_rows.now list_values.now) answer.old }
{
    engine::questions::turepawon_assignment_feasible_after_edits(
        rows,
        values,
        edge_rule,
        marks,
        keys,
        ranks,
        records,
        members,
        list_rows,
        list_values,
        answer,
    )
}

#[unsafe(no_mangle)]
pub extern "C" fn turepawon_reinsert_value_allowed(
    rows: usize,
    values: usize,
    edge_rule: u8,
    marks: &[u8],
    keys: &[usize],
    ranks: &[i64],
    records: &[usize],
    members: &[usize],
    list_rows: &[usize],
    list_values: &[usize],
    row: usize,
    value: usize,
    answer: &mut u8,
) -> u8
    ensures value { result
        ≡ code (reinsert_verdict (shaped rows values edge_rule) marks.now keys.now
        ranks.now records.now members.now list_rows.now list_values.now row value) }
    ensures answer_value { answer.new
        ≡ yes_flag (reinsert_verdict (shaped rows values edge_rule) marks.now keys.now ranks.now
        records.now members.now list_rows.now list_values.now row value) answer.old }
{
    engine::questions::turepawon_reinsert_value_allowed(
        rows,
        values,
        edge_rule,
        marks,
        keys,
        ranks,
        records,
        members,
        list_rows,
        list_values,
        row,
        value,
        answer,
    )
}

#[unsafe(no_mangle)]
pub extern "C" fn turepawon_roster_sound(
    rows: usize,
    values: usize,
    edge_rule: u8,
    marks: &[u8],
    keys: &[usize],
    ranks: &[i64],
    records: &[usize],
    members: &[usize],
    answer: &mut u8,
) -> u8
    ensures value { result ≡ code (sound_verdict (shaped rows values edge_rule) marks.now keys.now ranks.now records.now members.now) }
    ensures answer_value { answer.new ≡ yes_flag (sound_verdict (shaped rows values edge_rule) marks.now keys.now ranks.now records.now members.now) answer.old }
{
    engine::questions::turepawon_roster_sound(
        rows, values, edge_rule, marks, keys, ranks, records, members, answer,
    )
}
