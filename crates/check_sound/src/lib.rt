// What an accepted scene has: statements in specs/, proofs in proofs/.

#![tactic(auto)]
