#![tactic(auto)]

// Laws only: what the sweep by ranks finds is what the edges in steps have.
