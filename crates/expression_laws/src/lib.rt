#![tactic(auto)]

// Laws and no program: the laws of the expression, in specs/ and proofs/.
