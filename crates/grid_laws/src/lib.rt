#![tactic(auto)]

// Laws and no program: the plane counted in steps from the least coordinate, in specs/.
