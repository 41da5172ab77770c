// Completing a placing whose atoms are chosen: definitions in specs/, laws in proofs/.
#![tactic(auto)]
