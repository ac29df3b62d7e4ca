// A walk over the windows of an order in one call, admitted once: its moves stand one behind the
// other in lent outputs, until none is left or the next does not fit. docs/RULES.md, 8.8.

#![tactic(auto)]

pub mod onward;
mod place;
