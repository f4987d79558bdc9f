// A drawing hangs on the drawn values in their order, not on the numbers that name them: statement in specs/, proof in proofs/.

#![tactic(auto)]
