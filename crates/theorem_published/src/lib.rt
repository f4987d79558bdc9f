// Demand 2 as far as it is proved: square root, box test, triangle test and line simplification against IEEE 754 and
// the published methods. Statements in specs/, proofs in proofs/.

#![tactic(auto)]
