// Demand 3 as one claim, with scenes that bear it out: statements in specs/, proofs in proofs/.

#![tactic(auto)]
