// Demand 3 on hiding, of any solids: definitions and statements in specs/, proofs in proofs/.

#![tactic(auto)]
