// The order that windows are cut from, the cursor over its windows, step by step and walked in one
// call, and the ejection of one.
ghost use Rattle.std.specs.Prelude.{◌≡◌};
ghost use Rattle.assignment_order.specs.Ordered.{ordering};
ghost use Rattle.window_kinds.specs.Kinds.{rematching, cursor, new_cursor};
ghost use Rattle.assignment_cycle.specs.Stepping.{stepping};
ghost use Rattle.assignment_walk.specs.Runs.{walking};
ghost use Rattle.assignment_ejection.specs.Ejected.{ejecting};
ghost use Rattle.search_codes.specs.Codes.{limited};
ghost use Rattle.engine.specs.Asked.{shaped};
ghost use Rattle.engine.specs.Told.{ordered, order_told, begun, new_cursor_told, walked, step_told, traversed, walk_told, lifted, ejection_told};

use assignment_cycle::rematch;
use assignment_ejection::eject;
use assignment_index::Index;
use assignment_order::listing;
use assignment_tables::{Shape, Tables};
use refusals::codes::{code, list_told};
use window_kinds::{CycleWindowCursor, cursor};

// Lists the rows that hold a value, by position, rotated to the left by the offset. `count` becomes
// their number; a refusal leaves it and the output as they were.
pub fn turepawon_assigned_entities_by_position(
    rows: usize,
    values: usize,
    edge_rule: u8,
    marks: &[u8],
    keys: &[usize],
    ranks: &[i64],
    records: &[usize],
    members: &[usize],
    offset: usize,
    out_rows: &mut [usize],
    count: &mut usize,
) -> u8
    ensures { ordered result count.new out_rows.new
        ≡ order_told (ordering (shaped rows values edge_rule) marks.now keys.now ranks.now records.now members.now offset out_rows.old) count.old }
{
    let tables = Tables {
        shape: Shape {
            rows,
            values,
            edge_rule,
        },
        marks,
        keys,
        ranks,
    };
    let index = Index { records, members };
    let order = listing::assigned_entities_by_position(&tables, &index, offset, out_rows);
    *count = order.unwrap_or(*count);
    code(order)
}

// Writes the cursor that a walk over an order of so many rows begins with, for any rematch size. A
// refusal leaves the four numbers as they were.
pub fn turepawon_new_cursor(
    count: usize,
    size: usize,
    start: &mut usize,
    length: &mut usize,
    variant: &mut usize,
    longest: &mut usize,
) -> u8
    ensures { begun result (cursor start.new length.new variant.new longest.new)
        ≡ new_cursor_told (new_cursor rematching count size) (cursor start.old length.old variant.old longest.old) }
{
    let before = CycleWindowCursor {
        start: *start,
        length: *length,
        variant: *variant,
        longest: *longest,
    };
    let made = cursor::new_cursor(count, size);
    let at = made.unwrap_or(before);
    *start = at.start;
    *length = at.length;
    *variant = at.variant;
    *longest = at.longest;
    code(made)
}

// Moves the cursor right behind the next move over the windows of the order, and gives that move
// back: `moved` becomes 1 and `count` the number of its edits. Where there is none any more, the
// cursor goes to the end, `moved` becomes 0, and `count` and the outputs are as they were. A refusal
// leaves everything as it was.
pub fn turepawon_next_augmenting_rematch(
    rows: usize,
    values: usize,
    edge_rule: u8,
    marks: &[u8],
    keys: &[usize],
    ranks: &[i64],
    records: &[usize],
    members: &[usize],
    order: &[usize],
    start: &mut usize,
    length: &mut usize,
    variant: &mut usize,
    longest: &mut usize,
    out_rows: &mut [usize],
    out_values: &mut [usize],
    moved: &mut u8,
    count: &mut usize,
) -> u8
    ensures { walked result moved.new count.new (cursor start.new length.new variant.new longest.new) out_rows.new out_values.new
        ≡ step_told (stepping (shaped rows values edge_rule) marks.now keys.now ranks.now records.now members.now order.now
        (cursor start.old length.old variant.old longest.old) out_rows.old out_values.old) moved.old count.old }
{
    let tables = Tables {
        shape: Shape {
            rows,
            values,
            edge_rule,
        },
        marks,
        keys,
        ranks,
    };
    let index = Index { records, members };
    let at = CycleWindowCursor {
        start: *start,
        length: *length,
        variant: *variant,
        longest: *longest,
    };
    let step = rematch::next_augmenting_rematch(&tables, &index, order, at, out_rows, out_values);
    let answer = step.answer;
    *start = step.next.start;
    *length = step.next.length;
    *variant = step.next.variant;
    *longest = step.next.longest;
    list_told(answer, moved, count)
}

// Writes the moves from the cursor on, one behind the other, and how many edits each has, for as long
// as there is room. `moves` and `edits` become their numbers, `done` becomes 1 where no move is left
// and 0 where one is, and the cursor is where the next call goes on. A refusal leaves everything.
pub fn turepawon_walk_augmenting_rematch(
    rows: usize,
    values: usize,
    edge_rule: u8,
    marks: &[u8],
    keys: &[usize],
    ranks: &[i64],
    records: &[usize],
    members: &[usize],
    order: &[usize],
    start: &mut usize,
    length: &mut usize,
    variant: &mut usize,
    longest: &mut usize,
    out_rows: &mut [usize],
    out_values: &mut [usize],
    out_lengths: &mut [usize],
    done: &mut u8,
    moves: &mut usize,
    edits: &mut usize,
) -> u8
    ensures { traversed result done.new moves.new edits.new (cursor start.new length.new
        variant.new longest.new) out_rows.new out_values.new out_lengths.new
        ≡ walk_told (walking (shaped rows values edge_rule) marks.now keys.now ranks.now records.now members.now order.now
        (cursor start.old length.old variant.old longest.old) out_rows.old out_values.old out_lengths.old) done.old moves.old edits.old }
{
    let tables = Tables {
        shape: Shape {
            rows,
            values,
            edge_rule,
        },
        marks,
        keys,
        ranks,
    };
    let index = Index { records, members };
    let at = CycleWindowCursor {
        start: *start,
        length: *length,
        variant: *variant,
        longest: *longest,
    };
    let walk = walk_entry::walk_augmenting_rematch(
        &tables,
        &index,
        order,
        at,
        out_rows,
        out_values,
        out_lengths,
    );
    let answer = walk.answer;
    *start = walk.next.start;
    *length = walk.next.length;
    *variant = walk.next.variant;
    *longest = walk.next.longest;
    *done = walk_answers::codes::walk_flag(answer, *done);
    *moves = walk_answers::codes::walk_moves(answer, *moves);
    *edits = walk_answers::codes::walk_edits(answer, *edits);
    code(answer)
}

// Lists the edits that lift the rows of a window out and put them back: `listed` becomes 1 and
// `count` their number, or `listed` becomes 0 where a required row finds no value. A `limit` of
// 2^64 - 1 offers every candidate. What is not listed is left as it was; a refusal leaves all.
pub fn turepawon_ejection_reinsert_edits(
    rows: usize,
    values: usize,
    edge_rule: u8,
    marks: &[u8],
    keys: &[usize],
    ranks: &[i64],
    records: &[usize],
    members: &[usize],
    window: &[usize],
    attempt: usize,
    limit: usize,
    out_rows: &mut [usize],
    out_values: &mut [usize],
    listed: &mut u8,
    count: &mut usize,
) -> u8
    ensures { lifted result listed.new count.new out_rows.new out_values.new
        ≡ ejection_told (ejecting (shaped rows values edge_rule) marks.now keys.now ranks.now records.now
        members.now window.now attempt (limited limit) out_rows.old out_values.old) listed.old count.old }
{
    let tables = Tables {
        shape: Shape {
            rows,
            values,
            edge_rule,
        },
        marks,
        keys,
        ranks,
    };
    let index = Index { records, members };
    let offered = search_codes::limited(limit);
    let ejection = eject::ejection_reinsert_edits(
        &tables, &index, window, attempt, offered, out_rows, out_values,
    );
    list_told(ejection, listed, count)
}
