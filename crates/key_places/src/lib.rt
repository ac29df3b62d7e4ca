// Whether a key has room for those who hold it, arrive and leave: the net change is a signed number.
// docs/RULES.md, 3.4.

#![tactic(auto)]

ghost use Rattle.std.specs.Prelude.{◌≡◌, ◌≤◌, pos, ◌+ℤ◌, ◌-ℤ◌};
ghost use Rattle.key_places.specs.Places.{fits_places};

// Arrivals minus departures.
fn net_change(arrived: usize, left: usize) -> i64
    requires { (arrived ≤ 128) × (left ≤ 128) }
    ensures { result ≡ pos arrived -ℤ pos left }
{
    (arrived as i64) - (left as i64)
}

// A number of holders with a net change fits the places of a key; a sum below zero does not.
pub fn fits_places(held: usize, arrived: usize, left: usize) -> bool
    requires { (held ≤ 128) × (arrived ≤ 128) × (left ≤ 128) }
    ensures { result ≡ fits_places (pos held +ℤ (pos arrived -ℤ pos left)) }
{
    let total = (held as i64) + net_change(arrived, left);
    (0 <= total) & (total <= 1)
}
