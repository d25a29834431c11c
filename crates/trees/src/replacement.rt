// A leaf replaced, and the nodes above it rewritten and counted.
ghost use Rattle.std.specs.Prelude.{◌≡◌, ◌+◌, ◌*◌, ◌^◌, ◌≤◌, ◌<◌, length};
ghost use Rattle.merkle.specs.Levels.{size};
ghost use Rattle.merkle.specs.Replacement.{Counted, replace_from, replace};
ghost use Rattle.trees.specs.Shapes.{tree, ValidSet, counted};

use crate::{Dimensions, nodes, sizes};

// The leaf is written at the place, then the h nodes above it: the count that is handed in goes on.
pub fn replace_from(
    d: Dimensions,
    diagonal: &[u64; 12],
    constants: &[u64; 208],
    store: &mut [u64],
    place: usize,
    leaf: &[u64],
    count: u64,
) -> u64
    requires { (ValidSet d constants.now) × (length store.old ≡ size (tree d diagonal.now constants.now) d.height)
        × (place < d.arity ^ d.height) × (length leaf.now ≡ d.node_size) × (count + d.height < 2 ^ 64) }
    ensures { (store.new ≡ (replace_from (tree d diagonal.now constants.now) d.height place leaf.now (counted store.old count)).store)
        × (result ≡ (replace_from (tree d diagonal.now constants.now) d.height place leaf.now (counted store.old count)).made) }
{
    let arity = d.arity;
    let height = d.height;
    let node_size = d.node_size;
    let leaves = sizes::leaf_count(arity, height);
    nodes::copy_words(leaf, 0, node_size, store, place * node_size);
    let mut made = count;
    let mut number = place;
    for _ in 0..height {
        let n = number / arity;
        made = nodes::rewrite_node(d, diagonal, constants, store, leaves, n, made);
        number = leaves + n;
    }
    made
}

// One replacement by itself: the count starts from 0.
pub fn replace(
    d: Dimensions,
    diagonal: &[u64; 12],
    constants: &[u64; 208],
    store: &mut [u64],
    place: usize,
    leaf: &[u64],
) -> u64
    requires { (ValidSet d constants.now) × (length store.old ≡ size (tree d diagonal.now constants.now) d.height)
        × (place < d.arity ^ d.height) × (length leaf.now ≡ d.node_size) }
    ensures { (store.new ≡ (replace (tree d diagonal.now constants.now) d.height place leaf.now store.old).store)
        × (result ≡ (replace (tree d diagonal.now constants.now) d.height place leaf.now store.old).made) }
{
    replace_from(d, diagonal, constants, store, place, leaf, 0)
}
