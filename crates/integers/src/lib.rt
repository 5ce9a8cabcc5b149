// Whole numbers as an arithmetic (specs/), and a solver of their equations (proofs/): there is no code here.
#![tactic(auto)]
