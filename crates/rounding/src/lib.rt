// What rounding keeps: sums and halves as fractions that are rounded once, and cells that no rounding leaves. Laws alone, in proofs/.

#![tactic(auto)]
