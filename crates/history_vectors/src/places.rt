// Each place's own opening, the verdict on its leaf with it, and its parts.
use harness::answers::{Refused, Said};
use harness::lists::List;
use harness::shown::Manner;
use harness::{answers, lists};
use parameters::ParameterSet;
use std::fmt;
use std::fmt::Write;
use streams::Output;

// The words of a node that begin at a place of the store, where it has them.
fn node_at(store: &[u64], at: u64, node_size: usize) -> &[u64] {
    let (_, from) = lists::split(store, at as usize);
    let (node, _) = lists::split(from, node_size);
    node
}

// What a reader gives for a level. A part is a row but for one node.
fn print_level(out: &mut Output, set: ParameterSet, siblings: &[u64], level: u64) -> fmt::Result {
    let mut part = [0; 16];
    let size = set.width.wrapping_sub(set.node_size).min(16) as usize;
    match opening_tree::copy_level(set, siblings, level, &mut part[..size]) {
        Ok(()) => {
            let words = adapters::reading::level_words(set, siblings, level);
            write!(out, " {}", lists::digest(words))
        }
        Err(refusal) => write!(out, " {}", Refused(refusal)),
    }
}

// Each level's part, and that of a level too many.
fn print_levels(out: &mut Output, set: ParameterSet, siblings: &[u64]) -> fmt::Result {
    for level in 0..set.height.wrapping_add(1) {
        print_level(out, set, siblings, level)?;
    }
    Ok(())
}

// The parts of an opening, of one whose first number is p, and of one that is too long.
fn print_readings(out: &mut Output, set: ParameterSet, opening: &List<1024>) -> fmt::Result {
    write!(out, " read")?;
    print_levels(out, set, opening.as_slice())?;
    write!(out, " spoilt")?;
    let mut spoilt = *opening;
    lists::put(spoilt.as_mut_slice(), 0, fields::order());
    print_levels(out, set, spoilt.as_slice())?;
    write!(out, " long")?;
    let (longer, _) = lists::split(opening.places(), opening.as_slice().len() + 1);
    print_level(out, set, longer, 0)
}

// A place's line; an opening has as many siblings' words.
pub fn line(
    out: &mut Output,
    set: ParameterSet,
    store: &[u64],
    siblings: usize,
    place: u64,
) -> fmt::Result {
    write!(out, "place {place}")?;
    let blank = List::<1024>::of(7, siblings);
    let opening = answers::call(out, Manner::Digest, "open", &blank, |siblings| {
        opening_tree::open(set, store, place, siblings)
    })?;
    let node_size = set.node_size.min(16) as usize;
    let root = (store.len() as u64).wrapping_sub(set.node_size);
    let leaf = place.wrapping_mul(set.node_size);
    let verdict = opening_tree::verify(
        set,
        node_at(store, root, node_size),
        place,
        node_at(store, leaf, node_size),
        opening.as_slice(),
    );
    write!(out, " verify{}", Said(verdict))?;
    print_readings(out, set, &opening)?;
    writeln!(out)
}
