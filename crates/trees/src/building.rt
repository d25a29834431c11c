// The store that holds every level, and its root.
ghost use Rattle.std.specs.Prelude.{◌≡◌, List, ℕ, ◌+◌, ◌*◌, ◌-◌, ◌^◌, ◌≤◌, length, drop};
ghost use Rattle.modular.specs.Arithmetic.{all_words};
ghost use Rattle.fields.specs.Prime.{prime};
ghost use Rattle.merkle.specs.Levels.{size, build, root};
ghost use Rattle.trees.specs.Shapes.{tree, ValidNumbers, ValidSet};

use crate::{Dimensions, nodes, sizes};

// The leaves are copied, and the nodes above them written one by one.
pub fn build(
    d: Dimensions,
    diagonal: &[u64; 12],
    constants: &[u64; 208],
    leaves: &[u64],
    store: &mut [u64],
)
    requires { (ValidSet d constants.now) × (length leaves.now ≡ d.arity ^ d.height * d.node_size)
        × (length store.old ≡ size (tree d diagonal.now constants.now) d.height) }
    ensures { store.new ≡ build (tree d diagonal.now constants.now) d.height leaves.now }
{
    let count = sizes::leaf_count(d.arity, d.height);
    let inner = sizes::inner_count(d);
    nodes::copy_words(leaves, 0, leaves.len(), store, 0);
    for n in 0..inner {
        nodes::rewrite_node(d, diagonal, constants, store, count, n, 0);
    }
}

// The last node of a store.
pub fn copy_root(d: Dimensions, store: &[u64], node: &mut [u64])
    requires { (d.node_size ≤ length store.now) × (length node.old ≡ d.node_size) }
    ensures { (D C : List ℕ) → node.new ≡ root (tree d D C) store.now }
{
    let node_size = d.node_size;
    nodes::copy_words(store, store.len() - node_size, node_size, node, 0);
}

// Whether the last words of a store are words.
pub fn ends_in_words(store: &[u64], count: usize) -> bool
    requires { count ≤ length store.now }
    ensures { result ≡ all_words prime (drop (length store.now - count) store.now) }
{
    let at = store.len() - count;
    parameters::all_words(&store[at..])
}
