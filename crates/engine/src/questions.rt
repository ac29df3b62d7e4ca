// The questions that are answered yes or no. `answer` becomes 1 or 0; a refusal leaves it as it was.
ghost use Rattle.std.specs.Prelude.{◌≡◌};
ghost use Rattle.refusals.specs.Codes.{code, yes_flag};
ghost use Rattle.assignment_overlay.specs.Verdicts.{final_verdict, reinsert_verdict};
ghost use Rattle.sound_rosters.specs.SoundVerdict.{sound_verdict};
ghost use Rattle.engine.specs.Asked.{shaped};

use assignment_index::Index;
use assignment_overlay::entry;
use assignment_tables::{Shape, Tables};
use refusals::codes::question_told;

// Whether the list passes the final test.
pub fn turepawon_assignment_feasible_after_edits(
    rows: usize,
    values: usize,
    edge_rule: u8,
    marks: &[u8],
    keys: &[usize],
    ranks: &[i64],
    records: &[usize],
    members: &[usize],
    list_rows: &[usize],
    list_values: &[usize],
    answer: &mut u8,
) -> u8
    ensures value { result ≡ code (final_verdict (shaped rows values edge_rule) marks.now keys.now ranks.now records.now members.now list_rows.now list_values.now) }
    ensures answer_value { answer.new
        ≡ yes_flag (final_verdict (shaped rows values edge_rule) marks.now keys.now
        ranks.now records.now members.now list_rows.now list_values.now) answer.old }
{
    let tables = Tables {
        shape: Shape {
            rows,
            values,
            edge_rule,
        },
        marks,
        keys,
        ranks,
    };
    let index = Index { records, members };
    let verdict = entry::assignment_feasible_after_edits(&tables, &index, list_rows, list_values);
    question_told(verdict, answer)
}

// Whether the named row may take the value after the list.
pub fn turepawon_reinsert_value_allowed(
    rows: usize,
    values: usize,
    edge_rule: u8,
    marks: &[u8],
    keys: &[usize],
    ranks: &[i64],
    records: &[usize],
    members: &[usize],
    list_rows: &[usize],
    list_values: &[usize],
    row: usize,
    value: usize,
    answer: &mut u8,
) -> u8
    ensures value { result
        ≡ code (reinsert_verdict (shaped rows values edge_rule) marks.now keys.now
        ranks.now records.now members.now list_rows.now list_values.now row value) }
    ensures answer_value { answer.new
        ≡ yes_flag (reinsert_verdict (shaped rows values edge_rule) marks.now keys.now ranks.now
        records.now members.now list_rows.now list_values.now row value) answer.old }
{
    let tables = Tables {
        shape: Shape {
            rows,
            values,
            edge_rule,
        },
        marks,
        keys,
        ranks,
    };
    let index = Index { records, members };
    let verdict = entry::reinsert_value_allowed(
        &tables,
        &index,
        list_rows,
        list_values,
        row,
        value,
    );
    question_told(verdict, answer)
}

// Whether the roster is sound.
pub fn turepawon_roster_sound(
    rows: usize,
    values: usize,
    edge_rule: u8,
    marks: &[u8],
    keys: &[usize],
    ranks: &[i64],
    records: &[usize],
    members: &[usize],
    answer: &mut u8,
) -> u8
    ensures value { result ≡ code (sound_verdict (shaped rows values edge_rule) marks.now keys.now ranks.now records.now members.now) }
    ensures answer_value { answer.new ≡ yes_flag (sound_verdict (shaped rows values edge_rule) marks.now keys.now ranks.now records.now members.now) answer.old }
{
    let tables = Tables {
        shape: Shape {
            rows,
            values,
            edge_rule,
        },
        marks,
        keys,
        ranks,
    };
    let index = Index { records, members };
    let verdict = sound_rosters::entry::roster_sound(&tables, &index);
    question_told(verdict, answer)
}
