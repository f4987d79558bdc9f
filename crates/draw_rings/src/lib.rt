// Rings in their own plane, and the promise on their points: statements in specs/, proofs in proofs/.

#![tactic(auto)]
