// No code: what a calendar that one entry wrote is to the entry that reads. docs/RULES.md, 13.9.

#![tactic(auto)]
