// The words that definitions are written in stand in specs/: there is no code here.
#![tactic(auto)]
