// The entries of trees: building and roots, openings and their verification.
#![tactic(auto)]

pub mod building;
pub mod openings;
pub mod sizing;
pub mod verdict;

pub use building::{build, root, storeless_root};
pub use openings::{open, verify};
pub use sizing::{TreeSizes, sizes};
pub use verdict::Verdict;
