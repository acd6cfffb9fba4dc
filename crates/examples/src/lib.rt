#![tactic(auto)]

// Laws and no program: the checked examples of document 01, in specs/ and proofs/.
