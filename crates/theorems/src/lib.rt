// What whole calls and sequences of them come to: definitions in specs/, theorems in proofs/, no code. No crate with code uses it.

#![tactic(auto)]
