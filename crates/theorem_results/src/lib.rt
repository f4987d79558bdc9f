// How lent slices end, and on which condition each number is met: document 01's words of the definitions that the calls promise. Statements in specs/, proofs in proofs/.

#![tactic(auto)]
