// What entries answer, in words. Only this module looks at the answers themselves.
use crate::lists::List;
use crate::shown::Manner;
use opening_tree::{Refusal, TreeSizes, Verdict};
use std::fmt;
use std::fmt::Write;
use streams::Output;

// A refusal, by its number.
#[derive(Clone, Copy)]
pub struct Refused(pub Refusal);

impl fmt::Display for Refused {
    fn fmt<W: fmt::Write>(&self, f: &mut fmt::Formatter<W>) -> fmt::Result {
        let number = self.0.number();
        write!(f, "refused {number}")
    }
}

// The sizes of the leaves, of a store and of an opening.
#[derive(Clone, Copy)]
pub struct Sizes(pub Result<TreeSizes, Refusal>);

impl fmt::Display for Sizes {
    fn fmt<W: fmt::Write>(&self, f: &mut fmt::Formatter<W>) -> fmt::Result {
        match self.0 {
            Ok(sizes) => {
                write!(
                    f,
                    " sizes {} {} {}",
                    sizes.leaves, sizes.store, sizes.opening
                )
            }
            Err(refusal) => write!(f, " sizes {}", Refused(refusal)),
        }
    }
}

// A verdict.
#[derive(Clone, Copy)]
pub struct Said(pub Verdict);

impl fmt::Display for Said {
    fn fmt<W: fmt::Write>(&self, f: &mut fmt::Formatter<W>) -> fmt::Result {
        match self.0 {
            Verdict::Accepted => write!(f, " accepted"),
            Verdict::Rejected => write!(f, " rejected"),
            Verdict::Refused(number) => write!(f, " refused {number}"),
        }
    }
}

// A number that an entry answers, after what it counts: the compressions of a replacement or a push, or the level that extraction finds.
#[derive(Clone, Copy)]
pub struct Counted<'a>(pub &'a str, pub Result<u64, Refusal>);

impl fmt::Display for Counted<'_> {
    fn fmt<W: fmt::Write>(&self, f: &mut fmt::Formatter<W>) -> fmt::Result {
        match self.1 {
            Ok(count) => write!(f, " {} {count}", self.0),
            Err(refusal) => write!(f, " {}", Refused(refusal)),
        }
    }
}

// A list after a call that is lent it, whatever the call answers.
pub fn after<const N: usize, F: FnOnce(&mut [u64]) -> Result<(), Refusal>>(
    before: &List<N>,
    call: F,
) -> List<N>
    requires { F.IsAlwaysCallable call }
{
    let mut list = *before;
    let _ = call(list.as_mut_slice());
    list
}

// A list after a call that is lent it. The call's name is printed and what it answered: what it left in the list, or its refusal and whether
// the list is as it was.
pub fn call<const N: usize, F: FnOnce(&mut [u64]) -> Result<(), Refusal>>(
    out: &mut Output,
    manner: Manner,
    name: &str,
    before: &List<N>,
    call: F,
) -> Result<List<N>, fmt::Error>
    requires { F.IsAlwaysCallable call }
{
    let mut list = *before;
    match call(list.as_mut_slice()) {
        Ok(()) => write!(out, " {name}{}", manner.show(list.as_slice()))?,
        Err(refusal) if list.as_slice() == before.as_slice() => {
            write!(out, " {name} {} kept", Refused(refusal))?
        }
        Err(refusal) => write!(out, " {name} {} changed", Refused(refusal))?,
    }
    Ok(list)
}
