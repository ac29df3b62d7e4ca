// The exports that are lent a struct: edits as records of a row and a value, and a cursor that is
// moved on where it stands. C and Rust declare both structs as they lie here. Two functions take
// them: they make the shape, and call.
ghost use Rattle.std.specs.Prelude.{◌≡◌};
ghost use Rattle.assignment_overlay.specs.Verdicts.{final_verdict};
ghost use Rattle.assignment_cycle.specs.Stepping.{stepping};
ghost use Rattle.edit_records.specs.Records.{rows_in, values_in};
ghost use Rattle.engine.specs.Asked.{shaped};
ghost use Rattle.engine.specs.Told.{judged, verdict_told, walked, step_told};

use assignment_index::Index;
use assignment_tables::{Shape, Tables};
use edit_records::Edit;
use refusals::codes::{list_told, question_told};
use window_kinds::CycleWindowCursor;

// Whether the records pass the final test. `answer` becomes 1 or 0; a refusal leaves it as it was.
pub fn turepawon_assignment_feasible_after_edit_records(
    edits: &[Edit],
    rows: usize,
    values: usize,
    edge_rule: u8,
    marks: &[u8],
    keys: &[usize],
    ranks: &[i64],
    records: &[usize],
    members: &[usize],
    answer: &mut u8,
) -> u8
    ensures { judged result answer.new
        ≡ verdict_told (final_verdict (shaped rows values edge_rule) marks.now keys.now ranks.now
        records.now members.now (rows_in edits.now) (values_in edits.now)) answer.old }
{
    let tables = Tables {
        shape: Shape {
            rows,
            values,
            edge_rule,
        },
        marks,
        keys,
        ranks,
    };
    let index = Index { records, members };
    let verdict = edit_records::assignment_feasible_after_edit_records(edits, &tables, &index);
    question_told(verdict, answer)
}

// Moves the lent cursor right behind the next move over the windows of the order, and gives that
// move back: `moved` becomes 1 and `count` the number of its edits. Where there is none any more,
// the cursor goes to the end, `moved` becomes 0, and `count` and the outputs are as they were. A
// refusal leaves everything as it was.
pub fn turepawon_next_augmenting_rematch_at(
    cursor: &mut CycleWindowCursor,
    rows: usize,
    values: usize,
    edge_rule: u8,
    marks: &[u8],
    keys: &[usize],
    ranks: &[i64],
    records: &[usize],
    members: &[usize],
    order: &[usize],
    out_rows: &mut [usize],
    out_values: &mut [usize],
    moved: &mut u8,
    count: &mut usize,
) -> u8
    ensures { walked result moved.new count.new cursor.new out_rows.new out_values.new
        ≡ step_told (stepping (shaped rows values edge_rule) marks.now keys.now ranks.now records.now
        members.now order.now cursor.old out_rows.old out_values.old) moved.old count.old }
{
    let tables = Tables {
        shape: Shape {
            rows,
            values,
            edge_rule,
        },
        marks,
        keys,
        ranks,
    };
    let index = Index { records, members };
    let answer = lent_cursor::next_augmenting_rematch_at(
        cursor, &tables, &index, order, out_rows, out_values,
    );
    list_told(answer, moved, count)
}
