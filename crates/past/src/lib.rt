// Any machine's runs, and the history of a bit: specs/ has the definitions, proofs/ the one law; this crate has no code.
#![tactic(auto)]
