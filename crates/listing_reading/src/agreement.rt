// Whether records that stand in cells may stand in one file.
ghost use Rattle.std.specs.Prelude.{◌≡◌, not, ℕ, ◌≤◌, ◌<◌, ◌*◌, length};
ghost use Rattle.basics.specs.Tests.{all_below};
ghost use Rattle.listing_format.specs.Format.{clash, stands};
ghost use Rattle.listing_reading.specs.Cells.{record_in};

// Two records name the same row and value, or both hold the row.
fn records_clash(cells: &[usize], first: usize, second: usize) -> bool
    requires { (first < second) × (second < 7300) × (51100 ≤ length cells.now) }
    ensures { result ≡ clash (record_in cells.now first) (record_in cells.now second) }
{
    if cells[first * 7] != cells[second * 7] {
        return false;
    }
    if cells[first * 7 + 1] == cells[second * 7 + 1] {
        return true;
    }
    (cells[first * 7 + 2] == 1) & (cells[second * 7 + 2] == 1)
}

// A record clashes with none before it.
fn apart_before(cells: &[usize], place: usize) -> bool
    requires { (place < 7300) × (51100 ≤ length cells.now) }
    ensures { result ≡ all_below place (λ (i : ℕ). not (clash (record_in cells.now i) (record_in cells.now place))) }
{
    for i in 0..place {
        if records_clash(cells, i, place) {
            return false;
        }
    }
    true
}

// A record says 0 or 1, and clashes with none before it.
fn record_stands(cells: &[usize], place: usize) -> bool
    requires { (place < 7300) × (51100 ≤ length cells.now) }
    ensures { result ≡ stands (record_in cells.now) place }
{
    if 1 < cells[place * 7 + 2] {
        return false;
    }
    apart_before(cells, place)
}

// All of so many records.
pub fn records_agree(cells: &[usize], count: usize) -> bool
    requires { (count ≤ 7300) × (51100 ≤ length cells.now) }
    ensures { result ≡ all_below count (stands (record_in cells.now)) }
{
    for place in 0..count {
        if !record_stands(cells, place) {
            return false;
        }
    }
    true
}
