// Whether a number stands twice in a list: found by comparing, or by a map with a bit for each number.
#![tactic(auto)]

pub mod maps;
pub mod pairs;
