// The search by path on the way: trying a row, and walking its blocker's alternatives.
// docs/RULES.md, 6.2 to 6.5.

#![tactic(auto)]

mod enter;
pub mod walk;
