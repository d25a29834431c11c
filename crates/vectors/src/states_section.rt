// The section `states`: the permutation, its inverse and the compression, under a set that is handed in as it is.
use harness::input::Input;
use harness::lists::List;
use harness::shown::Manner;
use harness::{answers, handed};
use parameters::ParameterSet;
use std::fmt;
use std::fmt::Write;
use streams::Output;

// The state after the permutation of it.
fn permute(
    out: &mut Output,
    manner: Manner,
    set: ParameterSet,
    state: &List<16>,
) -> Result<List<16>, fmt::Error> {
    answers::call(out, manner, "permute", state, |state| {
        opening_tree::permute(set, state)
    })
}

// The state after the inverse permutation of it.
fn unpermute(
    out: &mut Output,
    manner: Manner,
    set: ParameterSet,
    state: &List<16>,
) -> Result<List<16>, fmt::Error> {
    answers::call(out, manner, "unpermute", state, |state| {
        opening_tree::unpermute(set, state)
    })
}

// The node that the compression of the state leaves in a buffer.
fn compress(
    out: &mut Output,
    manner: Manner,
    set: ParameterSet,
    state: &List<16>,
    node: &List<16>,
) -> Result<List<16>, fmt::Error> {
    answers::call(out, manner, "compress", node, |node| {
        opening_tree::compress(set, state.as_slice(), node)
    })
}

// The permutation of the state, the inverse of what that left, the compression of the state.
fn in_full(out: &mut Output, set: ParameterSet, state: &List<16>, node: &List<16>) -> fmt::Result {
    let permuted = permute(out, Manner::InFull, set, state)?;
    unpermute(out, Manner::InFull, set, &permuted)?;
    compress(out, Manner::InFull, set, state, node)?;
    Ok(())
}

// All three entries on the state, and whether the first two undo each other.
fn digests(out: &mut Output, set: ParameterSet, state: &List<16>, node: &List<16>) -> fmt::Result {
    let permuted = permute(out, Manner::Digest, set, state)?;
    let unpermuted = unpermute(out, Manner::Digest, set, state)?;
    compress(out, Manner::Digest, set, state, node)?;
    let one = answers::after(&permuted, |state| opening_tree::unpermute(set, state));
    let other = answers::after(&unpermuted, |state| opening_tree::permute(set, state));
    if one.as_slice() == state.as_slice() && other.as_slice() == state.as_slice() {
        write!(out, " back")
    } else {
        write!(out, " lost")
    }
}

// One case, in full or not.
pub fn case(out: &mut Output, input: &mut Input<'_>, manner: Manner) -> fmt::Result {
    let (numbers, set) = handed::read_set(input);
    let state = List::read(input);
    let node = List::of(7, input.count(16));
    write!(out, "{numbers}")?;
    match manner {
        Manner::InFull => in_full(out, set, &state, &node)?,
        Manner::Digest => digests(out, set, &state, &node)?,
    }
    writeln!(out)
}
