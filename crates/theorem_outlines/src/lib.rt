// Document 02's request (vii), the promise for the rings of outlines: statements in specs/, proofs in proofs/.

#![tactic(auto)]
