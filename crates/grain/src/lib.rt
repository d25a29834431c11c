// The generator of round constants. The crate has definitions, claims and proofs, and no code.

#![tactic(auto)]
