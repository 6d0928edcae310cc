// Laws alone: the struct that the split of a fallback's rows leaves has ports as wide as a row, and outputs below the limit of nets.
#![tactic(auto)]
