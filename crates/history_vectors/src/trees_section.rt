// Trees, and what is called on each. The module docstring of reference/history_cases.py has the input's grammar.
use crate::{calls, places};
use harness::input::Input;
use harness::lists::List;
use harness::shown::Manner;
use harness::{answers, handed};
use parameters::ParameterSet;
use std::fmt;
use std::fmt::Write;
use streams::Output;

// The calls, in order.
fn print_calls(
    out: &mut Output,
    input: &mut Input<'_>,
    set: ParameterSet,
    store: &mut [u64],
    count: u64,
) -> fmt::Result {
    for _ in 0..count {
        calls::line(out, input, set, store)?;
    }
    Ok(())
}

// The line of each place from 0 on.
fn print_places(
    out: &mut Output,
    set: ParameterSet,
    store: &[u64],
    siblings: usize,
    count: u64,
) -> fmt::Result {
    for place in 0..count {
        places::line(out, set, store, siblings, place)?;
    }
    Ok(())
}

// One tree, its calls and its places.
pub fn case(out: &mut Output, input: &mut Input<'_>) -> fmt::Result {
    let (numbers, set) = handed::read_set(input);
    let leaves = List::<1024>::read(input);
    let blank = List::<1024>::of(7, input.count(1024));
    let siblings = input.count(1024);
    let places = input.number();
    let calls = input.number();
    write!(out, "{numbers}")?;
    let mut store = answers::call(out, Manner::Digest, "build", &blank, |store| {
        opening_tree::build(set, leaves.as_slice(), store)
    })?;
    writeln!(out)?;
    print_calls(out, input, set, store.as_mut_slice(), calls)?;
    print_places(out, set, store.as_slice(), siblings, places)
}
