// Rows, classes and tables of any register map: specs/ has the definitions, proofs/ their laws; this crate has no code.
#![tactic(auto)]
