// Document 01's worked pieces, proved of the definitions: the table in specs/, its proof in proofs/.

#![tactic(auto)]
