// When a call is refused, and with which number: definitions in specs/, theorems in proofs/. The crate has no code.
#![tactic(auto)]
