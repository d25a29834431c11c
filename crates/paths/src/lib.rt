// The path from a leaf to the root, by a place's siblings; and where two paths collide.
#![tactic(auto)]

pub mod collisions;
pub mod comparison;

ghost use Rattle.std.specs.Prelude.{◌≡◌, List, ℕ, ◌+◌, ◌*◌, ◌-◌, ◌≤◌, ◌<◌, length, take};
ghost use Rattle.merkle.specs.Lists.{part};
ghost use Rattle.merkle.specs.Openings.{put_back, path_node, accepts};
ghost use Rattle.trees.specs.Shapes.{tree, ValidNumbers, ValidSet};

use trees::{Dimensions, nodes};

// A node put back at its own place c among the siblings of its row, which stand from `at` on.
pub fn path_row(d: Dimensions, own: [u64; 6], siblings: &[u64], at: usize, c: usize) -> [u64; 12]
    requires { (ValidNumbers d) × (c < d.arity) × (at + (d.arity - 1) * d.node_size ≤ length siblings.now) }
    ensures { (D C : List ℕ) → take (d.arity * d.node_size) result
        ≡ put_back (tree d D C) c (take d.node_size own) (part at ((d.arity - 1) * d.node_size) siblings.now) }
{
    let node_size = d.node_size;
    let before = c * node_size;
    let behind = (d.arity - 1) * node_size - before;
    let mut row = [0u64; 12];
    nodes::copy_words(siblings, at, before, &mut row, 0);
    nodes::copy_words(&own, 0, node_size, &mut row, before);
    nodes::copy_words(siblings, at + before, behind, &mut row, before + node_size);
    row
}

// The node of a level that the leaf and its siblings come to.
pub fn path_node(
    d: Dimensions,
    diagonal: &[u64; 12],
    constants: &[u64; 208],
    place: usize,
    leaf: &[u64],
    siblings: &[u64],
    level: usize,
) -> [u64; 6]
    requires { (ValidSet d constants.now) × (length leaf.now ≡ d.node_size) × (level ≤ d.height)
        × (length siblings.now ≡ d.height * ((d.arity - 1) * d.node_size)) }
    ensures { take d.node_size result ≡ path_node (tree d diagonal.now constants.now) place leaf.now siblings.now level }
{
    let arity = d.arity;
    let beside = (arity - 1) * d.node_size;
    let mut own = nodes::node_at(leaf, d.node_size, 0);
    let mut number = place;
    for j in 0..level {
        let row = path_row(d, own, siblings, j * beside, number % arity);
        own = nodes::compress_row(d, diagonal, constants, row);
        number /= arity;
    }
    own
}

// Whether the leaf's path ends in the root.
pub fn accepts(
    d: Dimensions,
    diagonal: &[u64; 12],
    constants: &[u64; 208],
    root: &[u64],
    place: usize,
    leaf: &[u64],
    siblings: &[u64],
) -> bool
    requires { (ValidSet d constants.now) × (length root.now ≡ d.node_size) × (length leaf.now ≡ d.node_size)
        × (length siblings.now ≡ d.height * ((d.arity - 1) * d.node_size)) }
    ensures { result ≡ accepts (tree d diagonal.now constants.now) d.height root.now place leaf.now siblings.now }
{
    let own = path_node(d, diagonal, constants, place, leaf, siblings, d.height);
    &own[..root.len()] == root
}
