// Lists by rule (specs/) and laws on numbers, lists and tables (proofs/): there is no code here.
#![tactic(auto)]
