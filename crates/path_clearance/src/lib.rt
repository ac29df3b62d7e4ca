// Whether rows at hand leave a row clear: those that the search's list moves, and those at its sides.
// docs/RULES.md, 6.2 and 6.3.

#![tactic(auto)]

pub mod arrivals;
pub mod sides;
