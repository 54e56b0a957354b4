// Maps that were not grown, certified by tests: no code, only definitions in specs/ and theorems in proofs/.
#![tactic(auto)]
