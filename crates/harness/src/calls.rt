// A call of each entry of trees, on lists that the line holds.
use crate::answers::{Said, Sizes};
use crate::input::Input;
use crate::lists::List;
use crate::shown::Manner;
use crate::{answers, handed, lists};
use parameters::ParameterSet;
use std::fmt;
use std::fmt::Write;
use streams::Output;

// Drawn words: their count, and the place that holds p, from 1 on: 0 for none.
pub fn read_held(input: &mut Input<'_>, seed: u64) -> List<1024> {
    let mut list = List::drawn(input.count(1024), seed);
    let fault = input.number();
    lists::put(list.as_mut_slice(), fault.wrapping_sub(1), fields::order());
    list
}

// What each entry answers with a set, on what the line holds.
pub fn print(out: &mut Output, input: &mut Input<'_>, set: ParameterSet) -> fmt::Result {
    let leaves = read_held(input, 0);
    let store = read_held(input, 1);
    let siblings = read_held(input, 2);
    let root = read_held(input, 3);
    let leaf = read_held(input, 4);
    let place = input.number();
    write!(out, "{}", Sizes(opening_tree::sizes(set)))?;
    answers::call(out, Manner::Digest, "build", &store, |store| {
        opening_tree::build(set, leaves.as_slice(), store)
    })?;
    answers::call(out, Manner::Digest, "root", &root, |root| {
        opening_tree::root(set, store.as_slice(), root)
    })?;
    answers::call(out, Manner::Digest, "storeless_root", &root, |root| {
        opening_tree::storeless_root(set, leaves.as_slice(), root)
    })?;
    answers::call(out, Manner::Digest, "open", &siblings, |siblings| {
        opening_tree::open(set, store.as_slice(), place, siblings)
    })?;
    let verdict = opening_tree::verify(
        set,
        root.as_slice(),
        place,
        leaf.as_slice(),
        siblings.as_slice(),
    );
    write!(out, " verify{}", Said(verdict))
}

// A line's set, and each entry with it.
pub fn case(out: &mut Output, input: &mut Input<'_>) -> fmt::Result {
    let (numbers, set) = handed::read_set(input);
    write!(out, "{numbers}")?;
    print(out, input, set)?;
    writeln!(out)
}
