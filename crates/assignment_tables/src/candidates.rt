// A row's candidates, as a part of the lent marks.
ghost use Rattle.std.specs.Prelude.{◌≡◌, true, ◌+◌, ◌*◌, ◌≤◌, ◌<◌, take, drop};
ghost use Rattle.rules.specs.Board.{limited};
ghost use Rattle.assignment_tables.specs.Layout.{Marked, candidates_start};
ghost use Rattle.assignment_tables.specs.Tables.{count_at, candidates_at, offered};
ghost use Rattle.assignment_tables.specs.Refusal.{all_candidates_fit};

use crate::{Shape, Tables, layout};

// How many candidates a row counts, also where that is more than there is room for.
pub fn candidate_count(tables: &Tables<'_>, row: usize) -> usize
    requires marked { Marked tables.now.shape tables.now.marks.now }
    requires row_lt_rows { row < tables.now.shape.rows }
    ensures { result ≡ count_at tables.now.shape tables.now.marks.now row }
{
    let at = layout::counts_start(tables.shape) + row;
    usize::from(tables.marks[at])
}

// A row's first candidates.
pub fn first_candidates<'a>(tables: &Tables<'a>, row: usize, count: usize) -> &'a [u8]
    requires marked { Marked tables.now.shape tables.now.marks.now }
    requires row_lt_rows { (row < tables.now.shape.rows) × (count ≤ 64) }
    ensures { result.now ≡ take count (drop (candidates_start tables.now.shape + row * 64) tables.now.marks.now) }
{
    let start = layout::candidates_start(tables.shape) + row * 64;
    let end = start + count;
    &tables.marks[start..end]
}

// How many of a number of candidates the limit leaves.
fn offered_count(limit: Option<usize>, count: usize) -> usize
    ensures { result ≡ offered limit count }
{
    limit.map_or(count, |most| most.min(count))
}

// The candidates of a row that the limit leaves, in order; none for a row out of range.
pub fn candidate_values<'a>(tables: &Tables<'a>, row: usize, limit: Option<usize>) -> &'a [u8]
    requires marked { Marked tables.now.shape tables.now.marks.now }
    requires marks_value { all_candidates_fit tables.now.shape tables.now.marks.now ≡ true }
    ensures { result.now ≡ limited limit (candidates_at tables.now.shape tables.now.marks.now row) }
{
    if row < tables.shape.rows {
        let count = offered_count(limit, candidate_count(tables, row));
        return first_candidates(tables, row, count);
    }
    &tables.marks[0..0]
}
