// What a row and a value come to on the way down. It does not depend on what was displaced before:
// search_rules/proofs/Displacing says why.
ghost use Rattle.std.specs.Prelude.{◌≡◌};
ghost use Rattle.rules.specs.Board.{Board};
ghost use Rattle.rules.specs.Neighbours.{below, above};
ghost use Rattle.assignment_tables.specs.Layout.{Marked};
ghost use Rattle.assignment_tables.specs.Tables.{legal_at, the_board};
ghost use Rattle.assignment_index.specs.Index.{Indexed, the_roster, IsIndexed};
ghost use Rattle.path_steps.specs.Prospects.{prospect_of};
ghost use Rattle.path_steps.specs.Judging.{concluded, prospect_among, may_block, rows_if, Sequenced};

use crate::blockers::Blockers;
use crate::{Prospect, blockers, sides};
use assignment_index::{Index, columns, rows as parts};
use assignment_tables::{Shape, Tables, cells, layout, lookup};
use path_blockers::rows;

// The value, which is none that stands for empty, is legal for the row.
fn is_legal(tables: &Tables<'_>, row: usize, value: usize) -> bool
    requires { Marked tables.now.shape tables.now.marks.now }
    ensures { result ≡ legal_at tables.now.shape tables.now.marks.now row value }
{
    let from = layout::legal_start(tables.shape);
    cells::cell_flag(
        tables.shape.rows,
        tables.shape.values,
        tables.marks,
        from,
        row,
        value,
    )
}

// What the blockers that were found come to.
fn conclude(shape: Shape, displace: bool, found: Blockers) -> Prospect
    ensures { result ≡ concluded shape.rows displace found }
{
    if found.required < shape.rows {
        return Prospect::Blocked(found.required);
    }
    if displace {
        return Prospect::Free;
    }
    if found.optional {
        return Prospect::Fails;
    }
    Prospect::Free
}

// The prospect of a row that only the holders of its key may block.
fn by_holders(tables: &Tables<'_>, displace: bool, row: usize, holders: &[usize]) -> Prospect
    requires { Marked tables.now.shape tables.now.marks.now }
    ensures { result ≡ prospect_among tables.now.shape tables.now.marks.now displace row holders.now }
{
    conclude(
        tables.shape,
        displace,
        blockers::found_among(tables, row, holders),
    )
}

// The prospect under the edge rule: those at the sides block where it refuses one of them.
fn by_sides(
    tables: &Tables<'_>,
    displace: bool,
    row: usize,
    holders: &[usize],
    below: &[usize],
    above: &[usize],
) -> Prospect
    requires { Marked tables.now.shape tables.now.marks.now }
    ensures { result ≡ prospect_among tables.now.shape tables.now.marks.now displace row (may_block tables.now.shape tables.now.marks.now displace row holders.now below.now above.now) }
{
    let holding = blockers::found_among(tables, row, holders);
    if !path_clearance::sides::sides_refuse(tables, displace, row, below, above) {
        return conclude(tables.shape, displace, holding);
    }
    let low = blockers::found_among(tables, row, below);
    let high = blockers::found_among(tables, row, above);
    conclude(
        tables.shape,
        displace,
        blockers::both(holding, blockers::both(low, high)),
    )
}

// The same for the rows at the sides of a sequence: they and those at the sequence stand one behind
// the other, so one bisection finds them all.
fn by_rule(
    tables: &Tables<'_>,
    index: &Index<'_, '_>,
    displace: bool,
    row: usize,
    value: usize,
    sequence: usize,
    holders: &[usize],
) -> Prospect
    requires marked { Marked tables.now.shape tables.now.marks.now }
    requires sequenced { Sequenced tables.now.shape.rows index.now.records.now index.now.members.now }
    ensures { (B : Board) → result ≡ prospect_among tables.now.shape tables.now.marks.now displace row
        (may_block tables.now.shape tables.now.marks.now displace row holders.now (rows_if tables.now.shape index.now.records.now value (below B sequence)) (rows_if tables.now.shape index.now.records.now value (above B sequence))) }
{
    let part = parts::by_sequence();
    let lowest = sides::lowest(sequence);
    let first = columns::part_start(tables.shape.rows, index, part, value, lowest);
    let lower = sequence_steps::sequence_below(sequence);
    let below = sides::stretch(tables.shape, index, value, lower, first);
    let start = first + below.len();
    let here = columns::part_from(tables.shape.rows, index, part, value, sequence, start);
    let next = start + here.len();
    let higher = sequence_steps::sequence_above(sequence);
    let above = sides::stretch(tables.shape, index, value, higher, next);
    by_sides(tables, displace, row, holders, below, above)
}

pub fn prospect(
    tables: &Tables<'_>,
    index: &Index<'_, '_>,
    displace: bool,
    row: usize,
    value: usize,
) -> Prospect
    requires { IsIndexed tables.now index.now }
    ensures { result ≡ prospect_of (the_board tables.now) displace (the_roster tables.now index.now) row value }
{
    if !is_legal(tables, row, value) {
        return Prospect::Fails;
    }
    let holders = rows::holders_of(tables, index, row, value);
    if !lookup::has_assignment_rule(tables.shape) {
        return by_holders(tables, displace, row, holders);
    }
    let Some(sequence) = lookup::sequence_key(tables, row, value) else {
        return by_holders(tables, displace, row, holders);
    };
    by_rule(tables, index, displace, row, value, sequence, holders)
}
