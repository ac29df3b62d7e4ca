// The step of a cursor that is lent, and moved on where it stands. One function takes the reference;
// the step by value decides everything. docs/RULES.md, 8.7.

#![tactic(auto)]

ghost use Rattle.std.specs.Prelude.{◌≡◌};
ghost use Rattle.window_kinds.specs.Stepping.{leaves};
ghost use Rattle.assignment_cycle.specs.Stepping.{stepping};
ghost use Rattle.lent_cursor.specs.Lent.{step_to};
ghost use Rattle.assignment_index.specs.Index.{of_lent};

use assignment_cycle::rematch;
use assignment_index::Index;
use assignment_tables::{Shape, Tables};
use refusals::Refusal;
use window_kinds::{CycleWindowCursor, Step};

// The step by value, with the cursor first, as the entry hands it on.
fn step_from(
    cursor: CycleWindowCursor,
    tables: &Tables<'_>,
    index: &Index<'_, '_>,
    order: &[usize],
    out_rows: &mut [usize],
    out_values: &mut [usize],
) -> Step
    ensures { leaves result out_rows.new out_values.new
        ≡ of_lent stepping tables.now index.now order.now cursor out_rows.old out_values.old }
{
    rematch::next_augmenting_rematch(tables, index, order, cursor, out_rows, out_values)
}

// Moves the cursor on to where the step by value would, and answers what it answers. A refusal
// leaves the cursor as it was.
pub fn next_augmenting_rematch_at(
    cursor: &mut CycleWindowCursor,
    tables: &Tables<'_>,
    index: &Index<'_, '_>,
    order: &[usize],
    out_rows: &mut [usize],
    out_values: &mut [usize],
) -> Result<Option<usize>, Refusal>
    ensures { leaves (step_to cursor.new result) out_rows.new out_values.new
        ≡ of_lent stepping tables.now index.now order.now cursor.old out_rows.old out_values.old }
{
    let step = step_from(*cursor, tables, index, order, out_rows, out_values);
    cursor.start = step.next.start;
    cursor.length = step.next.length;
    cursor.variant = step.next.variant;
    step.answer
}
