// What becomes of each bit of any device over any map, and its history: specs/ has the rules, proofs/ their laws; this crate has no code.
#![tactic(auto)]
