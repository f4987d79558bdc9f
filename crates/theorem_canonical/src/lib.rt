// What is claimed of the canonical text (document 02, xii): statements in specs/, proofs in proofs/.

#![tactic(auto)]
