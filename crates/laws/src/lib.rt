// Laws of the definitions in `rules`. They are in proofs/; this crate has no code.
#![tactic(auto)]
