// The error of one operation and of a sum of products, over any number of corners: laws in proofs/, and no code.
#![tactic(auto)]
