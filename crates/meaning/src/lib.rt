#![tactic(auto)]

// Definitions and no program: what document 01 means, in specs/; spot checks of them in proofs/.
