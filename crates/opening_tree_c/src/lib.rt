// The library for C: every entry as a function over numbers and slices, none of which presumes anything. Each returns 0 or the number of
// the refusal; `opening_tree_verify` returns 255 for an opening that is rejected (Rules 8.6).
#![tactic(auto)]

pub mod arithmetic;
pub mod changes;
pub mod leaves;
pub mod reading;
pub mod sets;
pub mod states;
pub mod tree;
