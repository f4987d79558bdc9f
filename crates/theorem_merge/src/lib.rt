// Two scenes merged: what the merged one holds and hides. Statements in specs/, proofs in proofs/.

#![tactic(auto)]
