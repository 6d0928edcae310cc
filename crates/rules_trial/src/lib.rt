// Calls of the Rust and its answers, which the rules give too: see specs/Wire.antt and proofs/.
#![tactic(auto)]
