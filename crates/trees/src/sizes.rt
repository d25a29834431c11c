// How many nodes and words a tree has.
ghost use Rattle.std.specs.Prelude.{◌≡◌, List, ℕ, ◌*◌, ◌-◌, ◌^◌, ◌≤◌};
ghost use Rattle.merkle.specs.Levels.{size};
ghost use Rattle.merkle.specs.Numbering.{inner};
ghost use Rattle.trees.specs.Shapes.{tree, ValidNumbers};

use crate::Dimensions;

// The leaves: k^h. Not by `pow`, whose exponent has 32 bits: where k is 1, any h may come.
pub fn leaf_count(arity: usize, height: usize) -> usize
    requires { (1 ≤ arity) × (arity ^ height ≤ 4294967296) }
    ensures { result ≡ arity ^ height }
{
    let mut leaves = 1;
    for _ in 0..height {
        leaves *= arity;
    }
    leaves
}

// The nodes above the leaves. Each stands for the k nodes of its row, and all nodes but the root are in rows.
pub fn inner_count(d: Dimensions) -> usize
    requires { ValidNumbers d }
    ensures { (D C : List ℕ) → result ≡ inner (tree d D C) d.height }
{
    let arity = d.arity;
    (leaf_count(arity, d.height) - 1) / (arity - 1)
}

// The words of a store.
pub fn store_size(d: Dimensions) -> usize
    requires { ValidNumbers d }
    ensures { (D C : List ℕ) → result ≡ size (tree d D C) d.height }
{
    (leaf_count(d.arity, d.height) + inner_count(d)) * d.node_size
}

// A level's siblings: one node fewer than a row.
pub fn part_size(arity: usize, node_size: usize) -> usize
    requires { (1 ≤ arity) × (arity ≤ 12) × (node_size ≤ 12) }
    ensures { result ≡ (arity - 1) * node_size }
{
    (arity - 1) * node_size
}

// The words of an opening.
pub fn opening_size(arity: usize, node_size: usize, height: usize) -> usize
    requires { (1 ≤ arity) × (arity ≤ 12) × (node_size ≤ 12) × (height ≤ 32) }
    ensures { result ≡ height * ((arity - 1) * node_size) }
{
    height * part_size(arity, node_size)
}
