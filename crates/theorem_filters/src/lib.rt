// What the filters of a draw and of a cut pass: statements in specs/, proofs in proofs/.

#![tactic(auto)]
