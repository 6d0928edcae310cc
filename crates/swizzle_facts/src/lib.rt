// What number 0 of a swizzle says: definitions and laws only.
#![tactic(auto)]
