// Placings as the search sees them: definitions in specs/, laws in proofs/.
#![tactic(auto)]
