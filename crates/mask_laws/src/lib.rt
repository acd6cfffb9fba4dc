#![tactic(auto)]

// Laws and no program: what is promised of `read`, `write` and `edges_of`, in one place, and the examples of the paper, in specs/.
