// What a pass of a push does with each record, and the levels. Every function presumes what the push has tested before.
#![tactic(auto)]

pub mod levels;
pub mod phase;
pub mod steps;

pub use phase::Phase;
