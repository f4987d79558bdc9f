// The canonical text of a scene (document 02, xii): definitions in specs/, laws of them in proofs/.

#![tactic(auto)]
