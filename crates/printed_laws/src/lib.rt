#![tactic(auto)]

// Laws and no program: what is shown of the printed text, in specs/ and proofs/.
