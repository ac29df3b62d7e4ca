// A driver's calendar read back: the rows and days of an iCalendar object that is folded anywhere. docs/RULES.md, 13.

#![tactic(auto)]

pub mod calendar;
mod events;
mod octets;
