// The section `trees`: stores, roots, openings and verdicts, under a set that is handed in as it is.
ghost use Rattle.std.specs.Prelude.{◌<◌, length};

use harness::answers::{Said, Sizes};
use harness::input::Input;
use harness::lists::List;
use harness::shown::Manner;
use harness::{answers, handed, lists};
use opening_tree::Verdict;
use parameters::ParameterSet;
use std::fmt;
use std::fmt::Write;
use streams::Output;

// The verdict on a root, a leaf and siblings that stand one after another.
fn verdict_on(set: ParameterSet, place: u64, words: &[u64], node_size: usize) -> Verdict {
    let (root, opened) = lists::split(words, node_size);
    let (leaf, siblings) = lists::split(opened, node_size);
    opening_tree::verify(set, root, place, leaf, siblings)
}

// The verdict with the word at one index damaged: the word after it stands there.
fn damaged_verdict(
    set: ParameterSet,
    place: u64,
    words: &mut [u64],
    at: usize,
    node_size: usize,
) -> Verdict
    requires { at < length words.old }
{
    let word = words[at];
    words[at] = lists::word_of(word.wrapping_add(1));
    let verdict = verdict_on(set, place, words, node_size);
    words[at] = word;
    verdict
}

// How many of the words are accepted and how many rejected with one of them damaged, each in turn.
fn damaged_verdicts(
    set: ParameterSet,
    place: u64,
    words: &mut [u64],
    node_size: usize,
) -> (usize, usize) {
    let mut accepted = 0;
    let mut rejected = 0;
    for at in 0..words.len() {
        match damaged_verdict(set, place, words, at, node_size) {
            Verdict::Accepted => accepted += 1,
            Verdict::Rejected => rejected += 1,
            Verdict::Refused(_) => {}
        }
    }
    (accepted, rejected)
}

// A tree as its line gives it and the entries made it, and how it is printed.
#[derive(Clone, Copy)]
struct Tree<'a> {
    set: ParameterSet,
    manner: Manner,
    leaves: &'a [u64],
    store: &'a [u64],
    root: &'a [u64],
    // how many words an opening has
    siblings: usize,
}

// The tree's root, a leaf and siblings, one after another.
fn joined(root: &[u64], leaf: &[u64], siblings: &[u64]) -> List<1024> {
    let both = root.len().saturating_add(root.len());
    let mut list = List::of(0, both.saturating_add(siblings.len()));
    let words = list.as_mut_slice();
    lists::write(words, 0, root);
    lists::write(words, root.len(), leaf);
    lists::write(words, both, siblings);
    list
}

// One place's line: its opening, the verdict on it, and those with each of the words damaged.
fn place_line(out: &mut Output, tree: Tree<'_>, place: u64, leaf: &[u64]) -> fmt::Result {
    write!(out, "place {place}")?;
    let blank = List::<1024>::of(7, tree.siblings);
    let opening = answers::call(out, tree.manner, "open", &blank, |siblings| {
        opening_tree::open(tree.set, tree.store, place, siblings)
    })?;
    let node_size = tree.root.len();
    let mut words = joined(tree.root, leaf, opening.as_slice());
    let verdict = Said(verdict_on(tree.set, place, words.as_slice(), node_size));
    let (accepted, rejected) = damaged_verdicts(tree.set, place, words.as_mut_slice(), node_size);
    writeln!(out, " verify{verdict} damaged {accepted} {rejected}")
}

// A line for each place.
fn place_lines(out: &mut Output, tree: Tree<'_>, places: u64) -> fmt::Result {
    let mut left = tree.leaves;
    for place in 0..places {
        let (leaf, others) = lists::split(left, tree.root.len());
        place_line(out, tree, place, leaf)?;
        left = others;
    }
    Ok(())
}

// One tree, in full or not: the sizes, the store, the root of it and without it, and the places' lines.
pub fn case(out: &mut Output, input: &mut Input<'_>, manner: Manner) -> fmt::Result {
    let (numbers, set) = handed::read_set(input);
    let leaves = List::<1024>::read(input);
    let blank_store = List::<1024>::of(7, input.count(1024));
    let siblings = input.count(1024);
    let places = input.number();
    let blank_root = List::<1024>::of(7, set.node_size.min(1024) as usize);
    write!(out, "{numbers}{}", Sizes(opening_tree::sizes(set)))?;
    let store = answers::call(out, manner, "build", &blank_store, |store| {
        opening_tree::build(set, leaves.as_slice(), store)
    })?;
    let root = answers::call(out, Manner::InFull, "root", &blank_root, |root| {
        opening_tree::root(set, store.as_slice(), root)
    })?;
    answers::call(out, Manner::InFull, "storeless_root", &blank_root, |root| {
        opening_tree::storeless_root(set, leaves.as_slice(), root)
    })?;
    writeln!(out)?;
    let tree = Tree {
        set,
        manner,
        leaves: leaves.as_slice(),
        store: store.as_slice(),
        root: root.as_slice(),
        siblings,
    };
    place_lines(out, tree, places)
}
