#![tactic(auto)]

// Laws and no program: the edges of a good ring list are accepted, in specs/.
