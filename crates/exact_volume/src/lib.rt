// The exact volume of a hexahedron (specs/) and its laws (proofs/): there is no code here.
#![tactic(auto)]
