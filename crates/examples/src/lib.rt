// The paper's twelve starred examples are in specs/Examples.antt, their claim in proofs/Examples.antt; this crate has no code.
#![tactic(auto)]
