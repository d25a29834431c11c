// The entries that push a list of replacement records.
#![tactic(auto)]

mod ends;
pub mod pushing;

pub use pushing::{push, push_listed};
