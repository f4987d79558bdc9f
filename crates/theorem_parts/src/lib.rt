// A sheet is its parts: the drawing of a yard is the drawings of its drawn entries, one after another. Statements in specs/, proofs in proofs/.

#![tactic(auto)]
