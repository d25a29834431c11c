// Marks in a store: a push writes its leaves, marks the nodes above them, and then rewrites from below each node that bears the mark. Every
// function presumes what the push has tested before.
#![tactic(auto)]

pub mod marking;
pub mod rewriting;
