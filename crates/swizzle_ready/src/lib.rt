// A swizzle that no number refuses has what its two halves ask for: laws only.
#![tactic(auto)]
