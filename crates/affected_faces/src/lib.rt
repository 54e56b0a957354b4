// The faces whose rectangles a ticket may change: a definition and a theorem, no functions.
#![tactic(auto)]
