// What a draw does, from its lines to the sheet, and demand 3 in a draw. Terms and statements in specs/, proofs in
// proofs/.

#![tactic(auto)]
