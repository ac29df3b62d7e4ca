// A list tested and applied as one act.
ghost use Rattle.std.specs.Prelude.{◌≡◌};
ghost use Rattle.applied_lists.specs.Applying.{applying};
ghost use Rattle.engine.specs.Asked.{shaped};
ghost use Rattle.engine.specs.Told.{altered, apply_told};

use assignment_tables::{Shape, Tables};
use refusals::codes::question_told;

// Applies the list to the index if it passes the final test: `answer` becomes 1. Where it fails, `answer`
// becomes 0 and both slices are as they were; a refusal leaves `answer` as it was too.
pub fn turepawon_assignment_apply_edits(
    rows: usize,
    values: usize,
    edge_rule: u8,
    marks: &[u8],
    keys: &[usize],
    ranks: &[i64],
    records: &mut [usize],
    members: &mut [usize],
    list_rows: &[usize],
    list_values: &[usize],
    answer: &mut u8,
) -> u8
    ensures { altered result answer.new records.new members.new
        ≡ apply_told (applying (shaped rows values edge_rule) marks.now keys.now ranks.now
        records.old members.old list_rows.now list_values.now) answer.old }
{
    let tables = Tables {
        shape: Shape {
            rows,
            values,
            edge_rule,
        },
        marks,
        keys,
        ranks,
    };
    let verdict = assignment_apply::assignment_apply_edits(
        &tables,
        records,
        members,
        list_rows,
        list_values,
    );
    question_told(verdict, answer)
}
