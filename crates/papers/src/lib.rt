// A row for each sentence of the papers is in specs/Sentences.antt, their claim in proofs/Sentences.antt; this crate has no code.
#![tactic(auto)]
