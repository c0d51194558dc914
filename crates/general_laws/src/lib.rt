// Laws of lists, tests and words that say nothing of lifting: all of it stands in specs/.
#![tactic(auto)]
