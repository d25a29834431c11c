// The section `replacements`: leaves replaced one after another in a store that building wrote.
use crate::answers::Counted;
use crate::input::Input;
use crate::lists::List;
use crate::shown::Manner;
use crate::{answers, handed, lists};
use parameters::ParameterSet;
use std::fmt;
use std::fmt::Write;
use streams::Output;

// One replacement, after a number is put into the store. It is made in as much of the store's buffer as the line gives.
fn replacement(
    out: &mut Output,
    input: &mut Input<'_>,
    set: ParameterSet,
    store: &mut List<1024>,
) -> fmt::Result {
    let fault = input.number();
    let value = input.number();
    let given = input.count(1024);
    let place = input.number();
    let leaf = List::<16>::read(input);
    let places = store.places_mut();
    lists::put(places, fault.wrapping_sub(1), value);
    let changed = opening_tree::replace(set, &mut places[..given], place, leaf.as_slice());
    let digest = lists::digest(store.as_slice());
    writeln!(
        out,
        "replace {place}{} {digest}",
        Counted("compressions", changed)
    )
}

// One tree and its replacements, in order.
pub fn case(out: &mut Output, input: &mut Input<'_>) -> fmt::Result {
    let (numbers, set) = handed::read_set(input);
    let leaves = List::<1024>::read(input);
    let blank = List::of(7, input.count(1024));
    let calls = input.number();
    write!(out, "{numbers}")?;
    let mut store = answers::call(out, Manner::Digest, "build", &blank, |store| {
        opening_tree::build(set, leaves.as_slice(), store)
    })?;
    writeln!(out)?;
    for _ in 0..calls {
        replacement(out, input, set, &mut store)?;
    }
    Ok(())
}
