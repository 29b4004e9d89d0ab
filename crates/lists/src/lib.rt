// No code: small functions on lists and numbers that the other crates share stand in specs/, their laws in proofs/.
#![tactic(auto)]
