// A call of each entry of trees and of states, with one set and on lists that the line holds.
use crate::sets;
use harness::input::Input;
use harness::lists::List;
use harness::shown::Manner;
use harness::{answers, calls};
use parameters::ParameterSet;
use std::fmt;
use std::fmt::Write;
use streams::Output;

// What each entry of states answers.
fn print_states(
    out: &mut Output,
    set: ParameterSet,
    state: &List<1024>,
    node: &List<1024>,
) -> fmt::Result {
    answers::call(out, Manner::Digest, "permute", state, |state| {
        opening_tree::permute(set, state)
    })?;
    answers::call(out, Manner::Digest, "unpermute", state, |state| {
        opening_tree::unpermute(set, state)
    })?;
    answers::call(out, Manner::Digest, "compress", node, |node| {
        opening_tree::compress(set, state.as_slice(), node)
    })?;
    Ok(())
}

// One set, and each entry with it.
pub fn case(out: &mut Output, input: &mut Input<'_>) -> fmt::Result {
    let (numbers, set) = sets::read(input);
    write!(out, "{numbers}")?;
    calls::print(out, input, set)?;
    let state = calls::read_held(input, 5);
    let node = calls::read_held(input, 6);
    print_states(out, set, &state, &node)?;
    writeln!(out)
}
