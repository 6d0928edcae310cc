// Laws alone: how many words and nets the rows of a fallback give.
#![tactic(auto)]
