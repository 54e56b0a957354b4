// Laws of the map, which programs and the theorem of `grown` cite: they lie in proofs/. What refusals say of the drawing
// is in specs/.
#![tactic(auto)]
