// Where the corners of a cell's children stand, and that the children hold what the cell holds (specs/, proofs/): there is no code here.
#![tactic(auto)]
