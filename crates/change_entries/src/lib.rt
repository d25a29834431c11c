// The entry that changes one leaf of a built store.
#![tactic(auto)]

pub mod replacement;

pub use replacement::replace;
