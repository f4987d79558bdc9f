// What is known of the solids that a scene's slices are read as: statements in specs/, proofs in proofs/.

#![tactic(auto)]
