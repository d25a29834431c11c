// Exchanges of D and of h.
use crate::sets;
use harness::input::Input;
use harness::lists::List;
use std::fmt;
use std::fmt::Write;
use streams::Output;

// An exchange of D, which may be longer than any set's.
pub fn diagonal(out: &mut Output, input: &mut Input<'_>) -> fmt::Result {
    let (numbers, set) = sets::read(input);
    let list = List::<16>::read(input);
    let words = list.as_slice();
    write!(out, "{numbers} exchange_diagonal {}", words.len())?;
    sets::print_answer(out, opening_tree::exchange_diagonal(set, words))
}

// An exchange of h.
pub fn height(out: &mut Output, input: &mut Input<'_>) -> fmt::Result {
    let (numbers, set) = sets::read(input);
    let height = input.number();
    write!(out, "{numbers} exchange_height {height}")?;
    sets::print_answer(out, opening_tree::exchange_height(set, height))
}
