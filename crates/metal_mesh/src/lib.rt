// Where the numbers of a refined mesh stand, and that its cells hold what the mesh holds (specs/, proofs/): there is no code here.
#![tactic(auto)]
