// The tree of a set that is accepted: its numbers as the tree's work uses them, its sizes, and a level's part of its openings.
#![tactic(auto, using(crate::proofs::SetTrees::accepted))]

ghost use Rattle.std.specs.Prelude.{◌≡◌, ◌<◌, length};
ghost use Rattle.refusals.specs.Table.{first_refusal};
ghost use Rattle.parameters.specs.ParameterSet.{set_refusals};
ghost use Rattle.merkle.specs.Openings.{siblings_at};
ghost use Rattle.trees.specs.SetTrees.{tree_of_set, dimensions_of, leaf_count, leaf_words, store_words, opening_words, part_words};

use crate::{Dimensions, openings, sizes};
use parameters::ParameterSet;

// The set's numbers as the tree's work uses them.
pub fn dimensions(set: ParameterSet) -> Dimensions
    requires { first_refusal (set_refusals set) ≡ 0 }
    ensures { result ≡ dimensions_of set }
{
    Dimensions {
        arity: (set.width / set.node_size) as usize,
        node_size: set.node_size as usize,
        height: set.height as usize,
        half: (set.full_rounds / 2) as usize,
        partial_rounds: set.partial_rounds as usize,
    }
}

// The places of the tree: k^h.
pub fn places(set: ParameterSet) -> usize
    requires { first_refusal (set_refusals set) ≡ 0 }
    ensures { result ≡ leaf_count set }
{
    let d = dimensions(set);
    sizes::leaf_count(d.arity, d.height)
}

pub fn leaf_words(set: ParameterSet) -> usize
    requires { first_refusal (set_refusals set) ≡ 0 }
    ensures { result ≡ leaf_words set }
{
    places(set) * set.node_size as usize
}

pub fn store_words(set: ParameterSet) -> usize
    requires { first_refusal (set_refusals set) ≡ 0 }
    ensures { result ≡ store_words set }
{
    let d = dimensions(set);
    sizes::store_size(d)
}

pub fn opening_words(set: ParameterSet) -> usize
    requires { first_refusal (set_refusals set) ≡ 0 }
    ensures { result ≡ opening_words set }
{
    let d = dimensions(set);
    sizes::opening_size(d.arity, d.node_size, d.height)
}

pub fn part_words(set: ParameterSet) -> usize
    requires { first_refusal (set_refusals set) ≡ 0 }
    ensures { result ≡ part_words set }
{
    let d = dimensions(set);
    sizes::part_size(d.arity, d.node_size)
}

// The part of one level of an opening.
pub fn level_words<'a>(set: ParameterSet, siblings: &'a [u64], level: u64) -> &'a [u64]
    requires { (first_refusal (set_refusals set) ≡ 0) × (length siblings.now ≡ opening_words set) × (level < set.height) }
    ensures { result.now ≡ siblings_at (tree_of_set set) siblings.now level }
{
    openings::cut(siblings, part_words(set), level as usize)
}
