#![tactic(auto)]

// Laws and no program: words put into buckets by digits, and words in the order of their lowest bits, in specs/ and proofs/.
