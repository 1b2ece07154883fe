// The promises that join the crates: the marked cases, and the theorems over all of them.
#![tactic(auto)]
