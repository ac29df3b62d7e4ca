// The windows of an order whose rows are lifted out and put back, walked step by step.
ghost use Rattle.std.specs.Prelude.{◌≡◌};
ghost use Rattle.window_kinds.specs.Kinds.{reinserting, cursor, new_cursor};
ghost use Rattle.ejection_cycle.specs.Reinserting.{reinsert_stepping};
ghost use Rattle.search_codes.specs.Codes.{limited};
ghost use Rattle.engine.specs.Asked.{shaped};
ghost use Rattle.engine.specs.Told.{begun, new_cursor_told, walked, step_told};

use assignment_index::Index;
use assignment_tables::{Shape, Tables};
use ejection_cycle::reinsert;
use refusals::codes::{code, list_told};
use window_kinds::{CycleWindowCursor, cursor};

// Writes the cursor that such a walk over an order of so many rows begins with, for windows of at most
// `size` rows. A refusal leaves the four numbers as they were.
pub fn turepawon_new_ejection_cursor(
    count: usize,
    size: usize,
    start: &mut usize,
    length: &mut usize,
    variant: &mut usize,
    longest: &mut usize,
) -> u8
    ensures { begun result (cursor start.new length.new variant.new longest.new)
        ≡ new_cursor_told (new_cursor reinserting count size) (cursor start.old length.old variant.old longest.old) }
{
    let before = CycleWindowCursor {
        start: *start,
        length: *length,
        variant: *variant,
        longest: *longest,
    };
    let made = cursor::new_ejection_cursor(count, size);
    let at = made.unwrap_or(before);
    *start = at.start;
    *length = at.length;
    *variant = at.variant;
    *longest = at.longest;
    code(made)
}

// Moves the cursor right behind the next attempt whose list has an edit and passes the final test, and
// gives that list back: `moved` becomes 1 and `count` the number of its edits. Where there is none any
// more, the cursor goes to the end, `moved` becomes 0, and `count` and the outputs are as they were. A
// `limit` of 2^64 - 1 offers every candidate. A refusal leaves everything as it was.
pub fn turepawon_next_ejection_reinsert(
    rows: usize,
    values: usize,
    edge_rule: u8,
    marks: &[u8],
    keys: &[usize],
    ranks: &[i64],
    records: &[usize],
    members: &[usize],
    order: &[usize],
    start: &mut usize,
    length: &mut usize,
    variant: &mut usize,
    longest: &mut usize,
    limit: usize,
    out_rows: &mut [usize],
    out_values: &mut [usize],
    moved: &mut u8,
    count: &mut usize,
) -> u8
    ensures { walked result moved.new count.new (cursor start.new length.new variant.new longest.new) out_rows.new out_values.new
        ≡ step_told (reinsert_stepping (shaped rows values edge_rule) marks.now keys.now ranks.now records.now members.now order.now (limited limit)
        (cursor start.old length.old variant.old longest.old) out_rows.old out_values.old) moved.old count.old }
{
    let tables = Tables {
        shape: Shape {
            rows,
            values,
            edge_rule,
        },
        marks,
        keys,
        ranks,
    };
    let index = Index { records, members };
    let at = CycleWindowCursor {
        start: *start,
        length: *length,
        variant: *variant,
        longest: *longest,
    };
    let offered = search_codes::limited(limit);
    let step = reinsert::next_ejection_reinsert(
        &tables, &index, order, at, offered, out_rows, out_values,
    );
    let answer = step.answer;
    *start = step.next.start;
    *length = step.next.length;
    *variant = step.next.variant;
    *longest = step.next.longest;
    list_told(answer, moved, count)
}
