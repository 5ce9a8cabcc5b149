// The numbers by which each entry refuses: a claim in specs/, proved in proofs/. There is no code here.
#![tactic(auto)]
