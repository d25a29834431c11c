// What the programs `vectors`, `tree_vectors`, `history_vectors`, `file_vectors` and `set_vectors` read and write by: the numbers of their
// input, drawn numbers, lists of them, sets, answers in words, and calls of the entries of trees on what a line of the input holds.
#![tactic(auto)]

pub mod answers;
pub mod calls;
pub mod generator;
pub mod handed;
pub mod input;
pub mod lists;
pub mod printing;
pub mod replacements;
pub mod shown;
