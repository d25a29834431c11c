// Replacement records, what a push tests of each, and what it has found and made so far. Every function presumes what the push has tested
// before.
#![tactic(auto)]

pub mod listing;
pub mod record;
pub mod tally;
pub mod testing;

pub use record::Record;
