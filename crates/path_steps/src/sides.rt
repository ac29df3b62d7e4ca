// The rows at the two sides of a place, found with one bisection.
ghost use Rattle.std.specs.Prelude.{◌≡◌, Some, ℕ, ◌+◌, ◌-◌, ◌≤◌, length};
ghost use Rattle.overlay_pairs.specs.Pairs.{start_at};
ghost use Rattle.path_steps.specs.Judging.{rows_if, Sequenced};

use assignment_index::{Index, columns, rows};
use assignment_tables::Shape;

// The sequence from which on the rows at a place and at its sides are looked for.
pub fn lowest(sequence: usize) -> usize
    ensures { result ≡ sequence - 1 }
{
    sequence.saturating_sub(1)
}

// The rows that stand at a sequence of the value, if there is one, from where they start; those at
// the next sequence start where they end.
pub fn stretch<'a>(
    shape: Shape,
    index: &Index<'_, 'a>,
    value: usize,
    sequence: Option<usize>,
    start: usize,
) -> &'a [usize]
    requires sequenced { Sequenced shape.rows index.now.records.now index.now.members.now }
    requires by_index { (s : ℕ) → sequence ≡ Some s → start ≡ start_at shape index.now.records.now index.now.members.now value s }
    ensures result_value { result.now ≡ rows_if shape index.now.records.now value sequence }
    ensures by_index_2 { (s : ℕ) → sequence ≡ Some s → (start + length result.now ≡ start_at shape index.now.records.now index.now.members.now value (s + 1)) × (start + length result.now ≤ shape.rows) }
{
    let Some(s) = sequence else {
        return &index.members[0..0];
    };
    let part = rows::by_sequence();
    columns::part_from(shape.rows, index, part, value, s, start)
}
