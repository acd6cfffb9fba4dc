#![tactic(auto)]

// Laws and no program: sums over lists, lists with the same members, and ascending lists, in specs/.
