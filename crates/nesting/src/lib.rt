// The contents of a sheet: definitions in specs/ and theorems in proofs/. The code is in `contents`.
#![tactic(auto)]
