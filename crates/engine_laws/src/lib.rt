#![tactic(auto)]

// Laws only: what the sweep finds is what the calls run and area promise.
