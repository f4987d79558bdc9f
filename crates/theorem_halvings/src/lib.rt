// Document 02's request (ix), halvings that never run out: statements in specs/, proofs in proofs/.

#![tactic(auto)]
