// Where each table starts in its slice, and how long each slice is: one function a table, and
// nobody else writes these numbers.
ghost use Rattle.std.specs.Prelude.{◌≡◌};
ghost use Rattle.assignment_tables.specs.Layout.{Small, required_start, may_empty_start, position_given_start, order_given_start, counts_start, candidates_start, legal_start, capacity_given_start, sequence_given_start, edges_start, marks_length, capacity_start, sequence_start, keys_length, position_start, order_start, ranks_length};

use crate::Shape;

// marks: one byte each.

pub fn required_start(shape: Shape) -> usize
    requires { Small shape }
    ensures { result ≡ required_start shape }
{
    0
}

pub fn may_empty_start(shape: Shape) -> usize
    requires { Small shape }
    ensures { result ≡ may_empty_start shape }
{
    shape.rows
}

pub fn position_given_start(shape: Shape) -> usize
    requires { Small shape }
    ensures { result ≡ position_given_start shape }
{
    2 * shape.rows
}

pub fn order_given_start(shape: Shape) -> usize
    requires { Small shape }
    ensures { result ≡ order_given_start shape }
{
    3 * shape.rows
}

pub fn counts_start(shape: Shape) -> usize
    requires { Small shape }
    ensures { result ≡ counts_start shape }
{
    4 * shape.rows
}

pub fn candidates_start(shape: Shape) -> usize
    requires { Small shape }
    ensures { result ≡ candidates_start shape }
{
    5 * shape.rows
}

pub fn legal_start(shape: Shape) -> usize
    requires { Small shape }
    ensures { result ≡ legal_start shape }
{
    69 * shape.rows
}

pub fn capacity_given_start(shape: Shape) -> usize
    requires { Small shape }
    ensures { result ≡ capacity_given_start shape }
{
    69 * shape.rows + shape.rows * shape.values
}

pub fn sequence_given_start(shape: Shape) -> usize
    requires { Small shape }
    ensures { result ≡ sequence_given_start shape }
{
    69 * shape.rows + 2 * (shape.rows * shape.values)
}

pub fn edges_start(shape: Shape) -> usize
    requires { Small shape }
    ensures { result ≡ edges_start shape }
{
    69 * shape.rows + 3 * (shape.rows * shape.values)
}

pub fn marks_length(shape: Shape) -> usize
    requires { Small shape }
    ensures { result ≡ marks_length shape }
{
    69 * shape.rows + 3 * (shape.rows * shape.values) + shape.rows * shape.rows
}

// keys: one number each.

pub fn capacity_start(shape: Shape) -> usize
    requires { Small shape }
    ensures { result ≡ capacity_start shape }
{
    0
}

pub fn sequence_start(shape: Shape) -> usize
    requires { Small shape }
    ensures { result ≡ sequence_start shape }
{
    shape.rows * shape.values
}

pub fn keys_length(shape: Shape) -> usize
    requires { Small shape }
    ensures { result ≡ keys_length shape }
{
    2 * (shape.rows * shape.values)
}

// ranks: one signed number each.

pub fn position_start(shape: Shape) -> usize
    requires { Small shape }
    ensures { result ≡ position_start shape }
{
    0
}

pub fn order_start(shape: Shape) -> usize
    requires { Small shape }
    ensures { result ≡ order_start shape }
{
    shape.rows
}

pub fn ranks_length(shape: Shape) -> usize
    requires { Small shape }
    ensures { result ≡ ranks_length shape }
{
    2 * shape.rows
}
