// Leaves written, and the nodes above them marked.
ghost use Rattle.std.specs.Prelude.{◌≡◌, List, ℕ, ◌+◌, ◌*◌, ◌^◌, ◌≤◌, ◌<◌, length};
ghost use Rattle.merkle.specs.Levels.{size};
ghost use Rattle.merkle.specs.Marks.{is_marked, mark_node, mark_above, mark_change};
ghost use Rattle.merkle.specs.Replacement.{Change};
ghost use Rattle.trees.specs.Shapes.{tree, ValidNumbers};
ghost use Rattle.marks.specs.Marks.{mark};

use trees::{Dimensions, nodes};

// The mark: 2^64 - 1, which is no word.
pub const MARK: u64 = u64::MAX;

// Whether the node of number `leaves` + n bears the mark, in its first word.
pub fn is_marked(d: Dimensions, store: &[u64], leaves: usize, n: usize) -> bool
    requires { (ValidNumbers d) × ((leaves + n) * d.node_size + d.node_size ≤ length store.now) }
    ensures { (D C : List ℕ) → result ≡ is_marked (tree d D C) mark leaves n store.now }
{
    let at = (leaves + n) * d.node_size;
    store[at] == MARK
}

fn mark_node(d: Dimensions, store: &mut [u64], leaves: usize, n: usize)
    requires { (ValidNumbers d) × ((leaves + n) * d.node_size + d.node_size ≤ length store.old) }
    ensures { (D C : List ℕ) → store.new ≡ mark_node (tree d D C) mark leaves n store.old }
{
    let at = (leaves + n) * d.node_size;
    store[at] = MARK;
}

// The nodes above a place are marked, up to one that is marked already: then those above it are too.
fn mark_above(d: Dimensions, store: &mut [u64], leaves: usize, place: usize)
    requires { (ValidNumbers d) × ((D C : List ℕ) → length store.old ≡ size (tree d D C) d.height) × (leaves ≡ d.arity ^ d.height)
        × (place < d.arity ^ d.height) }
    ensures { (D C : List ℕ) → store.new ≡ mark_above (tree d D C) mark (d.arity ^ d.height) d.height place store.old }
{
    let mut number = place;
    for _ in 0..d.height {
        let n = number / d.arity;
        if is_marked(d, store, leaves, n) {
            return;
        }
        mark_node(d, store, leaves, n);
        number = leaves + n;
    }
}

// A leaf is written, and the nodes above it are marked.
pub fn write_leaf(d: Dimensions, store: &mut [u64], leaves: usize, place: usize, leaf: &[u64])
    requires { (ValidNumbers d) × ((D C : List ℕ) → length store.old ≡ size (tree d D C) d.height) × (leaves ≡ d.arity ^ d.height)
        × (place < d.arity ^ d.height) × (length leaf.now ≡ d.node_size) }
    ensures { (D C : List ℕ) → store.new ≡ mark_change (tree d D C) mark d.height (record { place = place; leaf = leaf.now }) store.old }
{
    let node_size = d.node_size;
    nodes::copy_words(leaf, 0, node_size, store, place * node_size);
    mark_above(d, store, leaves, place);
}
