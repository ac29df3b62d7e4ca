// Definitions alone: what a reader must believe of the engine stands in specs/, and no code here.

#![tactic(auto)]
