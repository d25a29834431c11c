// Opening readers: views over the sibling words of an opening, and a level's part of them.
#![tactic(auto)]

pub mod copies;
mod levels;
pub mod reading;

pub use copies::copy_level;
pub use reading::{OpeningReader, part_at, read_level, reader};
