// The entries of parameter sets and of the permutation.
#![tactic(auto)]

pub mod sets;
pub mod states;

pub use sets::{check, validate};
pub use states::{compress, permute, unpermute};
