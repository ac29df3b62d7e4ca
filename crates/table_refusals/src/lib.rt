// The refusals 1 and 2 of the lent tables: one function for every entry of the project.
// docs/RULES.md, 11.

#![tactic(auto)]

ghost use Rattle.std.specs.Prelude.{◌≡◌, true, ℕ, ◌<◌, ltb};
ghost use Rattle.basics.specs.Tests.{all};
ghost use Rattle.assignment_tables.specs.Layout.{Marked, Small};
ghost use Rattle.assignment_tables.specs.Refusal.{candidates_fit, all_candidates_fit, lengths_fit, tables_refusal};
ghost use Rattle.assignment_tables.specs.Tables.{of_ranked};

use assignment_tables::{Shape, Tables, candidates, layout};
use refusals::Refusal;

// Every listed number is below the bound. It never leaves early: so the machine takes many at a step.
fn all_under(bound: u8, listed: &[u8]) -> bool
    ensures { result ≡ all (λ (v : ℕ). ltb v bound) listed.now }
{
    let mut fits = true;
    for &x in listed {
        fits &= x < bound;
    }
    fits
}

// The row counts at most 64 candidates, and each is a value.
fn candidates_fit(tables: &Tables<'_>, row: usize) -> bool
    requires marked { Marked tables.now.shape tables.now.marks.now }
    requires row_lt_rows { row < tables.now.shape.rows }
    ensures { result ≡ candidates_fit tables.now.shape tables.now.marks.now row }
{
    let count = candidates::candidate_count(tables, row);
    if 64 < count {
        return false;
    }
    all_under(
        tables.shape.values as u8,
        candidates::first_candidates(tables, row, count),
    )
}

// Every count is at most 64, and every cell for a candidate is a value, also those that no row counts:
// two sweeps, which most tables pass. Where they do not, each row is asked.
fn all_cells_fit(tables: &Tables<'_>) -> bool
    requires { Marked tables.now.shape tables.now.marks.now }
    ensures { result ≡ true → all_candidates_fit tables.now.shape tables.now.marks.now ≡ true }
{
    let counts = layout::counts_start(tables.shape);
    let candidates = layout::candidates_start(tables.shape);
    let end = layout::legal_start(tables.shape);
    if !all_under(65, &tables.marks[counts..candidates]) {
        return false;
    }
    all_under(tables.shape.values as u8, &tables.marks[candidates..end])
}

fn all_candidates_fit(tables: &Tables<'_>) -> bool
    requires { Marked tables.now.shape tables.now.marks.now }
    ensures { result ≡ all_candidates_fit tables.now.shape tables.now.marks.now }
{
    if all_cells_fit(tables) {
        return true;
    }
    for row in 0..tables.shape.rows {
        if !candidates_fit(tables, row) {
            return false;
        }
    }
    true
}

// Each slice has the length that the shape asks.
fn lengths_fit(tables: &Tables<'_>) -> bool
    requires { Small tables.now.shape }
    ensures { result ≡ of_ranked lengths_fit tables.now }
{
    (tables.marks.len() == layout::marks_length(tables.shape))
        & (tables.keys.len() == layout::keys_length(tables.shape))
        & (tables.ranks.len() == layout::ranks_length(tables.shape))
}

// The refusal of the tables, if there is one; own_lengths says whether what else the caller was lent has its length.
pub fn tables_refusal(tables: &Tables<'_>, own_lengths: bool) -> Result<(), Refusal>
    ensures { result ≡ of_ranked tables_refusal tables.now own_lengths }
{
    if 128 < tables.shape.rows {
        return Err(Refusal::Sizes);
    }
    if 64 < tables.shape.values {
        return Err(Refusal::Sizes);
    }
    if !own_lengths {
        return Err(Refusal::Sizes);
    }
    if !lengths_fit(tables) {
        return Err(Refusal::Sizes);
    }
    if all_candidates_fit(tables) {
        return Ok(());
    }
    Err(Refusal::Candidates)
}
