// Document 01's worked examples that are marked P, and those of document 02's requests: one list in specs/, one proved claim in proofs/. There is no code here.
#![tactic(auto)]
