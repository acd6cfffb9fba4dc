#![tactic(auto)]

// Laws and no program: what reading a file or a ring list number by number comes to, in specs/.
