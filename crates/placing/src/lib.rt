// The theory of placings: definitions in specs/, theorems in proofs/.
#![tactic(auto)]
