#![tactic(auto)]

// Laws and no program: tables of rising numbers, and ranks in them, in specs/.
