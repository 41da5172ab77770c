// The starred worked sheets of document 01: the table in specs/, its proof in proofs/.
#![tactic(auto)]
