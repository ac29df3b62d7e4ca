// What each hook says of the lent tables: total, for any row and value.
ghost use Rattle.std.specs.Prelude.{◌≡◌, length};
ghost use Rattle.rules.specs.Board.{legal_or_empty};
ghost use Rattle.assignment_tables.specs.Layout.{Marked, keys_length, ranks_length};
ghost use Rattle.assignment_tables.specs.Tables.{required_at, may_empty_at, position_at, order_at, legal_at, capacity_at, sequence_at, rule_of, edge_at, of_tables};

use crate::{EMPTY, Shape, Tables, cells, layout};

pub fn is_required(tables: &Tables<'_>, row: usize) -> bool
    requires { Marked tables.now.shape tables.now.marks.now }
    ensures { result ≡ required_at tables.now.shape tables.now.marks.now row }
{
    cells::row_flag(
        tables.shape.rows,
        tables.marks,
        layout::required_start(tables.shape),
        row,
    )
}

pub fn may_be_empty(tables: &Tables<'_>, row: usize) -> bool
    requires { Marked tables.now.shape tables.now.marks.now }
    ensures { result ≡ may_empty_at tables.now.shape tables.now.marks.now row }
{
    cells::row_flag(
        tables.shape.rows,
        tables.marks,
        layout::may_empty_start(tables.shape),
        row,
    )
}

pub fn position_key(tables: &Tables<'_>, row: usize) -> Option<i64>
    requires marked { Marked tables.now.shape tables.now.marks.now }
    requires ranks_len { length tables.now.ranks.now ≡ ranks_length tables.now.shape }
    ensures { result ≡ position_at tables.now.shape tables.now.marks.now tables.now.ranks.now row }
{
    let from = layout::position_given_start(tables.shape);
    cells::row_rank(
        tables.shape.rows,
        tables.marks,
        from,
        tables.ranks,
        layout::position_start(tables.shape),
        row,
    )
}

pub fn entity_order_key(tables: &Tables<'_>, row: usize) -> Option<i64>
    requires marked { Marked tables.now.shape tables.now.marks.now }
    requires ranks_len { length tables.now.ranks.now ≡ ranks_length tables.now.shape }
    ensures { result ≡ order_at tables.now.shape tables.now.marks.now tables.now.ranks.now row }
{
    let from = layout::order_given_start(tables.shape);
    cells::row_rank(
        tables.shape.rows,
        tables.marks,
        from,
        tables.ranks,
        layout::order_start(tables.shape),
        row,
    )
}

// The value, which may be EMPTY, is legal for the row.
pub fn value_is_legal(tables: &Tables<'_>, row: usize, value: usize) -> bool
    requires { Marked tables.now.shape tables.now.marks.now }
    ensures { result ≡ legal_or_empty (may_empty_at tables.now.shape tables.now.marks.now) (legal_at tables.now.shape tables.now.marks.now) row value }
{
    if value == EMPTY {
        return may_be_empty(tables, row);
    }
    let from = layout::legal_start(tables.shape);
    cells::cell_flag(
        tables.shape.rows,
        tables.shape.values,
        tables.marks,
        from,
        row,
        value,
    )
}

pub fn capacity_key(tables: &Tables<'_>, row: usize, value: usize) -> Option<usize>
    requires marked { Marked tables.now.shape tables.now.marks.now }
    requires keys_len { length tables.now.keys.now ≡ keys_length tables.now.shape }
    ensures { result ≡ of_tables capacity_at tables.now row value }
{
    let from = layout::capacity_given_start(tables.shape);
    let start = layout::capacity_start(tables.shape);
    cells::cell_key(
        tables.shape.rows,
        tables.shape.values,
        tables.marks,
        from,
        tables.keys,
        start,
        row,
        value,
    )
}

pub fn sequence_key(tables: &Tables<'_>, row: usize, value: usize) -> Option<usize>
    requires marked { Marked tables.now.shape tables.now.marks.now }
    requires keys_len { length tables.now.keys.now ≡ keys_length tables.now.shape }
    ensures { result ≡ of_tables sequence_at tables.now row value }
{
    let from = layout::sequence_given_start(tables.shape);
    let start = layout::sequence_start(tables.shape);
    cells::cell_key(
        tables.shape.rows,
        tables.shape.values,
        tables.marks,
        from,
        tables.keys,
        start,
        row,
        value,
    )
}

pub fn has_assignment_rule(shape: Shape) -> bool
    ensures { result ≡ rule_of shape }
{
    shape.edge_rule != 0
}

// The table's answer for an ordered pair of rows; whether the rule is in force is another question.
pub fn assignment_edge_allowed(tables: &Tables<'_>, left: usize, right: usize) -> bool
    requires { Marked tables.now.shape tables.now.marks.now }
    ensures { result ≡ edge_at tables.now.shape tables.now.marks.now left right }
{
    let from = layout::edges_start(tables.shape);
    cells::cell_flag(
        tables.shape.rows,
        tables.shape.rows,
        tables.marks,
        from,
        left,
        right,
    )
}
