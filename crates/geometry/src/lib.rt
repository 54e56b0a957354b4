// The theorems on points, segments and curves lie in specs/ and proofs/.
#![tactic(auto)]
