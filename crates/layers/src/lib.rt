// The pieces of Poseidon2's rounds (Rules 3) on lazy numbers. A state is its blocks, by value: B is 1, 2 or 3, for 4, 8 or 12 words.
#![tactic(auto)]

pub mod external;
pub mod full;
pub mod partial;
