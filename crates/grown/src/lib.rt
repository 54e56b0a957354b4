// The theorems about grown maps lie in specs/ (what is claimed) and proofs/.
#![tactic(auto)]
