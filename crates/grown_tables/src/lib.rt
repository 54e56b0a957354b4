// Tables that tickets left, from the empty map on: a definition and theorems, no functions.
#![tactic(auto)]
