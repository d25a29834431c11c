// The tree's work on slices, at the shape of a validated set. Every function presumes what validation and the tests of lengths give.
#![tactic(auto)]

pub mod building;
pub mod nodes;
pub mod openings;
pub mod replacement;
pub mod sets;
pub mod sizes;

pub use building::{build, copy_root, ends_in_words};
pub use openings::{open, opening_is_words};
pub use replacement::{replace, replace_from};
pub use sizes::{leaf_count, store_size};

// A set's numbers, as the tree uses them: the arity is the width over the node size, `half` half the full rounds.
#[derive(Clone, Copy)]
pub struct Dimensions {
    pub arity: usize,
    pub node_size: usize,
    pub height: usize,
    pub half: usize,
    pub partial_rounds: usize,
}
