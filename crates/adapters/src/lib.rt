// Calls for callers that can hold neither a slice of records nor a part of an opening.
#![tactic(auto)]

pub mod pushing;
pub mod reading;
