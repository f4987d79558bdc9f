// Demand 3 on hiding, of scenes and of the public calls: statements in specs/, proofs in proofs/.

#![tactic(auto)]
