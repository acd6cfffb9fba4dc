#![tactic(auto)]

// Laws and no program: small laws that every other crate cites, in specs/.
