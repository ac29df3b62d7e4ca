// The roster: the value beside which each row says 1.
ghost use Rattle.std.specs.Prelude.{◌≡◌, List, ℕ, ◌≤◌, ◌<◌, ◌+◌, length, replicate};
ghost use Rattle.rules.specs.Board.{empty};
ghost use Rattle.listing_tables.specs.Filled.{Fitting, seated};

use assignment_tables::EMPTY;

// A record that says 1 puts its value at its row.
fn seat(cells: &[usize], i: usize, rows: usize, values: usize, roster: &mut [usize])
    requires fitting { Fitting cells.now (i + 1) rows values }
    requires i_bound { (i < 7300) × (length roster.old ≡ rows) }
    ensures { (s : List ℕ) → roster.old ≡ seated cells.now i s → roster.new ≡ seated cells.now (i + 1) s }
{
    if cells[i * 7 + 2] == 1 {
        let row = cells[i * 7];
        roster[row] = cells[i * 7 + 1];
    }
}

pub fn fill_roster(cells: &[usize], count: usize, rows: usize, values: usize, roster: &mut [usize])
    requires fitting { Fitting cells.now count rows values }
    requires count_bound { (count ≤ 7300) × (length roster.old ≡ rows) }
    ensures { roster.new ≡ seated cells.now count (replicate rows empty) }
{
    roster.fill(EMPTY);
    for i in 0..count {
        seat(cells, i, rows, values, roster);
    }
}
