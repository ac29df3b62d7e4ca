// The rows being tried further up.
ghost use Rattle.std.specs.Prelude.{◌≡◌, false, ◌<◌};
ghost use Rattle.word_bits.specs.Marks.{marked, no_row, one_more};

use crate::{Visiting, power};

pub fn none_visited() -> Visiting
    ensures { marked result ≡ no_row }
{
    Visiting { low: 0, high: 0 }
}

pub fn is_visiting(visiting: Visiting, row: usize) -> bool
    requires { row < 128 }
    ensures { result ≡ marked visiting row }
{
    if row < 64 {
        return visiting.low / power(row) % 2 == 1;
    }
    visiting.high / power(row - 64) % 2 == 1
}

pub fn visit(visiting: Visiting, row: usize) -> Visiting
    requires { (row < 128) × (marked visiting row ≡ false) }
    ensures { marked result ≡ one_more row (marked visiting) }
{
    if row < 64 {
        return Visiting {
            low: visiting.low + power(row),
            high: visiting.high,
        };
    }
    Visiting {
        low: visiting.low,
        high: visiting.high + power(row - 64),
    }
}
