#![tactic(auto)]

// Laws and no program: what is true of spelt numbers, ring lists and mask files, in specs/.
