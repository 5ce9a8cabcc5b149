// Which number each edge, face and centre of a mesh gets (specs/) and what follows from it (proofs/): there is no code here.
#![tactic(auto)]
