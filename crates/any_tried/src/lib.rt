// A small map of its own, on which the kinds that no device here has are tried: specs/ has its rows, proofs/ what deeds leave; this crate has no code.
#![tactic(auto)]
