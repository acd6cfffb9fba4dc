#![tactic(auto)]

// Laws and no program: the horizontals that the sweep finds, in specs/ and proofs/.
