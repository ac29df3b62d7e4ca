// The boards and rosters of the worked examples: definitions alone.

#![tactic(auto)]
