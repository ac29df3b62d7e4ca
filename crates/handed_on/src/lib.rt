// No code: laws for a proof that walks a function's code by hand, should one be needed (docs/ARCHITECTURE.md).

#![tactic(auto)]
