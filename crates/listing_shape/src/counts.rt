// How many rows and values the records name.
ghost use Rattle.std.specs.Prelude.{◌≡◌, ◌≤◌, ◌<◌, length};
ghost use Rattle.listing_shape.specs.FileBoard.{count_over};
ghost use Rattle.listing_shape.specs.Counts.{cell_in, counted, file_shape};

use assignment_tables::Shape;

// One more than the largest number in a column, if that is no more than a limit. A number past the
// limit ends the search, so none is too large to add to.
fn column_count(cells: &[usize], count: usize, column: usize, limit: usize) -> Option<usize>
    requires { (count ≤ 7300) × (column < 7) × (51100 ≤ length cells.now) × (limit ≤ 128) }
    ensures { result ≡ counted limit (count_over count (cell_in cells.now column)) }
{
    let mut most = 0;
    for i in 0..count {
        let number = cells[i * 7 + column];
        if limit <= number {
            return None;
        }
        most = most.max(number + 1);
    }
    Some(most)
}

// The shape that the records' largest row and value give; none where they name too many.
pub fn file_shape(cells: &[usize], count: usize) -> Option<Shape>
    requires { (count ≤ 7300) × (51100 ≤ length cells.now) }
    ensures { result ≡ file_shape cells.now count }
{
    let rows = column_count(cells, count, 0, 128)?;
    let values = column_count(cells, count, 1, 64)?;
    Some(Shape {
        rows,
        values,
        edge_rule: 0,
    })
}
