// HyperLMNtal graphs: definitions in specs/, theorems in proofs/, no code.
#![tactic(auto)]
