// The printout of a derivation: its definition, and that no two trees print alike. The code that prints is in a crate of its own.
#![tactic(auto)]
