// The rows of the index that matter to a row and a value: the holders of the key, and the rows at
// the places right below and right above.
ghost use Rattle.std.specs.Prelude.{◌≡◌, true, false, [], ℕ};
ghost use Rattle.basics.specs.Tests.{all_of_below};
ghost use Rattle.rules.specs.Neighbours.{beside};
ghost use Rattle.assignment_tables.specs.Tables.{capacity_at, rule_of, the_board, of_tables};
ghost use Rattle.assignment_index.specs.Index.{Indexed, the_roster, IsIndexed};
ghost use Rattle.search_rules.specs.Blockers.{shares};
ghost use Rattle.path_blockers.specs.Seeking.{standing_at};

use assignment_index::{Index, columns, rows};
use assignment_tables::{Shape, Tables, lookup};

// The holders of the row's key at the value, in row order.
pub fn holders_of<'a>(
    tables: &Tables<'_>,
    index: &Index<'_, 'a>,
    row: usize,
    value: usize,
) -> &'a [usize]
    requires { IsIndexed tables.now index.now }
    ensures { result.now
        ≡ all_of_below tables.now.shape.rows (λ (o : ℕ). shares (of_tables capacity_at tables.now row value)
        (of_tables capacity_at tables.now o (the_roster tables.now index.now o))) }
{
    let Some(key) = lookup::capacity_key(tables, row, value) else {
        return &index.members[0..0];
    };
    let part = rows::by_capacity();
    columns::part_members(tables.shape.rows, index, part, key, key)
}

// The rows that stand at a sequence of the value, if there is one, in row order.
fn standing_at<'a>(
    tables: &Tables<'_>,
    index: &Index<'_, 'a>,
    value: usize,
    sequence: Option<usize>,
) -> &'a [usize]
    requires { IsIndexed tables.now index.now }
    ensures { result.now ≡ all_of_below tables.now.shape.rows (of_tables standing_at tables.now index.now.records.now value sequence) }
{
    let Some(s) = sequence else {
        return &index.members[0..0];
    };
    let part = rows::by_sequence();
    columns::part_members(tables.shape.rows, index, part, value, s)
}

// The rows that stand right before the row, were it to hold the value; without the edge rule nobody
// asks who does.
pub fn rows_below<'a>(
    tables: &Tables<'_>,
    index: &Index<'_, 'a>,
    row: usize,
    value: usize,
) -> &'a [usize]
    requires { IsIndexed tables.now index.now }
    ensures result_value { rule_of tables.now.shape ≡ true → result.now ≡ all_of_below tables.now.shape.rows (λ (o : ℕ). beside (the_board tables.now) o (the_roster tables.now index.now o) row value) }
    ensures result_value_2 { rule_of tables.now.shape ≡ false → result.now ≡ [] }
{
    if !lookup::has_assignment_rule(tables.shape) {
        return &index.members[0..0];
    }
    let Some(sequence) = lookup::sequence_key(tables, row, value) else {
        return &index.members[0..0];
    };
    let below = sequence_steps::sequence_below(sequence);
    standing_at(tables, index, value, below)
}

// The rows that stand right behind it, under the edge rule.
pub fn rows_above<'a>(
    tables: &Tables<'_>,
    index: &Index<'_, 'a>,
    row: usize,
    value: usize,
) -> &'a [usize]
    requires { IsIndexed tables.now index.now }
    ensures result_value { rule_of tables.now.shape ≡ true → result.now ≡ all_of_below tables.now.shape.rows (λ (o : ℕ). beside (the_board tables.now) row value o (the_roster tables.now index.now o)) }
    ensures result_value_2 { rule_of tables.now.shape ≡ false → result.now ≡ [] }
{
    if !lookup::has_assignment_rule(tables.shape) {
        return &index.members[0..0];
    }
    let Some(sequence) = lookup::sequence_key(tables, row, value) else {
        return &index.members[0..0];
    };
    let above = sequence_steps::sequence_above(sequence);
    standing_at(tables, index, value, above)
}
