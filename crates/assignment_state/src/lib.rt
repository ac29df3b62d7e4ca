// Who may use the lent slices. docs/RULES.md, 2 and 11.

#![tactic(auto)]

pub mod admit;
