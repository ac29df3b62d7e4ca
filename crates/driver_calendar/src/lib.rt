// A driver's duties as a calendar: the entry, and its core. docs/RULES.md, 13.

#![tactic(auto)]

pub mod calendar;
mod gather;
