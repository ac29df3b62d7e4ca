// What a row offers under a limit is never more than 64 values, so that a limit is a number.
// docs/RULES.md, 1.4.

#![tactic(auto)]

ghost use Rattle.std.specs.Prelude.{◌≡◌};
ghost use Rattle.offered_values.specs.Offers.{most_offered};

// The most that a row offers under the limit, as a number: no row has more than 64 candidates.
pub fn most_offered(limit: Option<usize>) -> usize
    ensures { result ≡ most_offered limit }
{
    limit.unwrap_or(64)
}
