// A session for any machine that answers lines: specs/ has its definitions, proofs/ their laws; this crate has no code.
#![tactic(auto)]
