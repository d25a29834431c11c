// Replacements and pushes, one after another on a store.
use harness::answers::Counted;
use harness::input::Input;
use harness::lists;
use harness::lists::List;
use parameters::ParameterSet;
use std::fmt;
use std::fmt::Write;
use streams::Output;

// What a call is, by its first number.
#[derive(Clone, Copy)]
enum Kind {
    Replace,
    Push,
}

impl From<u64> for Kind {
    fn from(number: u64) -> Kind {
        match number {
            0 => Kind::Replace,
            _ => Kind::Push,
        }
    }
}

fn replace(
    out: &mut Output,
    input: &mut Input<'_>,
    set: ParameterSet,
    store: &mut [u64],
) -> fmt::Result {
    let place = input.number();
    let leaf = List::<16>::read(input);
    let changed = opening_tree::replace(set, store, place, leaf.as_slice());
    write!(out, "replace {place}{}", Counted("compressions", changed))
}

// The records' numbers are seven a record.
fn push(
    out: &mut Output,
    input: &mut Input<'_>,
    set: ParameterSet,
    store: &mut [u64],
) -> fmt::Result {
    let records = List::<1344>::read(input);
    let numbers = records.as_slice();
    let changed = adapters::pushing::push_list(set, store, numbers);
    write!(
        out,
        "push {}{}",
        numbers.len() / 7,
        Counted("compressions", changed)
    )
}

// One call's line, with the digest of the store after it.
pub fn line(
    out: &mut Output,
    input: &mut Input<'_>,
    set: ParameterSet,
    store: &mut [u64],
) -> fmt::Result {
    match Kind::from(input.number()) {
        Kind::Replace => replace(out, input, set, store)?,
        Kind::Push => push(out, input, set, store)?,
    }
    writeln!(out, " {}", lists::digest(store))
}
