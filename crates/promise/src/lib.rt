// The vocabulary of every contract: definitions in specs/, laws in proofs/, no code.

#![tactic(auto)]
