#![tactic(auto)]

// Laws and no program: what is shown of the calls run and area, in specs/.
