// A driver's duties as an iCalendar object, written. docs/RULES.md, 13.

#![tactic(auto)]

mod dates;
pub mod events;
pub mod object;
