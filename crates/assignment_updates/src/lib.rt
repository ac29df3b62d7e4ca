// The index built from a roster and advanced by lists, as callers use it. docs/RULES.md, 2 and 11.

#![tactic(auto)]

pub mod refresh;
