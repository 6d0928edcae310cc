// Laws alone: no number refuses the split of a memory without flip-flops by the plan of a fallback.
#![tactic(auto)]
