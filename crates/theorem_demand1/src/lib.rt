// Demand 1 as one claim, with the theorem of each public call. Statements in specs/, proofs in proofs/.

#![tactic(auto)]
