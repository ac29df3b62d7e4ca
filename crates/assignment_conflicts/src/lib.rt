// Which capacity keys have more holders than places, and who holds them. docs/RULES.md, 10.

#![tactic(auto)]

mod gather;
pub mod listing;
