// Marked nodes rewritten and counted, by the one function of `trees`, which takes their marks away.
ghost use Rattle.std.specs.Prelude.{◌≡◌, List, ℕ, ◌+◌, ◌*◌, ◌-◌, ◌/◌, ◌^◌, ◌≤◌, ◌<◌, length};
ghost use Rattle.merkle.specs.Levels.{size};
ghost use Rattle.merkle.specs.Marks.{rewrite_marked, sweep};
ghost use Rattle.merkle.specs.Numbering.{inner};
ghost use Rattle.merkle.specs.Replacement.{Counted};
ghost use Rattle.trees.specs.Shapes.{tree, ValidSet, counted};
ghost use Rattle.marks.specs.Marks.{mark, Rank};

use crate::marking;
use trees::{Dimensions, nodes, sizes};

// The node of number `leaves` + n is rewritten if it is marked.
pub fn rewrite_marked(
    d: Dimensions,
    diagonal: &[u64; 12],
    constants: &[u64; 208],
    store: &mut [u64],
    leaves: usize,
    n: usize,
    count: u64,
) -> u64
    requires { (ValidSet d constants.now) × (n * (d.arity * d.node_size) + d.arity * d.node_size ≤ length store.old)
        × ((leaves + n) * d.node_size + d.node_size ≤ length store.old) × (count + 1 < 2 ^ 64) }
    ensures { (store.new ≡ (rewrite_marked (tree d diagonal.now constants.now) mark leaves n (counted store.old count)).store)
        × (result ≡ (rewrite_marked (tree d diagonal.now constants.now) mark leaves n (counted store.old count)).made) }
{
    if !marking::is_marked(d, store, leaves, n) {
        return count;
    }
    nodes::rewrite_node(d, diagonal, constants, store, leaves, n, count)
}

// The node over a place, on a level that has `before` rows before its own and `under` places under each node.
pub fn rewrite_over(
    d: Dimensions,
    diagonal: &[u64; 12],
    constants: &[u64; 208],
    store: &mut [u64],
    leaves: usize,
    before: usize,
    under: usize,
    place: usize,
    count: u64,
) -> u64
    requires { (ValidSet d constants.now) × (length store.old ≡ size (tree d diagonal.now constants.now) d.height) × (leaves ≡ d.arity ^ d.height)
        × (Rank d before under) × (place < d.arity ^ d.height) × (count + 1 < 2 ^ 64) }
    ensures { (store.new ≡ (rewrite_marked (tree d diagonal.now constants.now) mark leaves (before + place / under) (counted store.old count)).store)
        × (result ≡ (rewrite_marked (tree d diagonal.now constants.now) mark leaves (before + place / under) (counted store.old count)).made) }
{
    let n = before + place / under;
    rewrite_marked(d, diagonal, constants, store, leaves, n, count)
}

// All nodes above the leaves from `leaves` + n on, one by one.
pub fn sweep(
    d: Dimensions,
    diagonal: &[u64; 12],
    constants: &[u64; 208],
    store: &mut [u64],
    leaves: usize,
    first: usize,
    count: u64,
) -> u64
    requires { (ValidSet d constants.now) × (length store.old ≡ size (tree d diagonal.now constants.now) d.height) × (leaves ≡ d.arity ^ d.height)
        × (first ≤ inner (tree d diagonal.now constants.now) d.height) × (count + leaves < 2 ^ 64) }
    ensures { (store.new ≡ (sweep (tree d diagonal.now constants.now) mark leaves first (inner (tree d diagonal.now constants.now) d.height - first) (counted store.old count)).store)
        × (result ≡ (sweep (tree d diagonal.now constants.now) mark leaves first (inner (tree d diagonal.now constants.now) d.height - first) (counted store.old count)).made) }
{
    let inner = sizes::inner_count(d);
    let mut made = count;
    for n in first..inner {
        made = rewrite_marked(d, diagonal, constants, store, leaves, n, made);
    }
    made
}
