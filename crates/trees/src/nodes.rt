// Words copied, rows compressed, and the one function that rewrites a stored node.
ghost use Rattle.std.specs.Prelude.{◌≡◌, ◌+◌, ◌*◌, ◌^◌, ◌≤◌, ◌<◌, length, take};
ghost use Rattle.merkle.specs.Levels.{Shape};
ghost use Rattle.merkle.specs.Lists.{part, put};
ghost use Rattle.merkle.specs.Numbering.{write_node};
ghost use Rattle.merkle.specs.Replacement.{Counted};
ghost use Rattle.trees.specs.Shapes.{tree, ValidSet, counted};

use crate::Dimensions;

// The `count` words of the source from `from` on are copied to the target from `to` on.
// By a loop, since `copy_from_slice` calls memmove, which the library for C does not need.
pub fn copy_words(source: &[u64], from: usize, count: usize, target: &mut [u64], to: usize)
    requires { (from + count ≤ length source.now) × (to + count ≤ length target.old) }
    ensures { target.new ≡ put target.old to (part from count source.now) }
{
    for i in 0..count {
        target[to + i] = source[from + i];
    }
}

// Node i of a list of nodes, in the first places of six.
pub fn node_at(nodes: &[u64], node_size: usize, i: usize) -> [u64; 6]
    requires { (i * node_size + node_size ≤ length nodes.now) × (node_size ≤ 6) }
    ensures { take node_size result ≡ part (i * node_size) node_size nodes.now }
{
    let mut node = [0u64; 6];
    copy_words(nodes, i * node_size, node_size, &mut node, 0);
    node
}

// The compression of the row that stands in the first places of twelve.
pub fn compress_row(
    d: Dimensions,
    diagonal: &[u64; 12],
    constants: &[u64; 208],
    mut row: [u64; 12],
) -> [u64; 6]
    requires { ValidSet d constants.now }
    ensures { take d.node_size result ≡ (tree d diagonal.now constants.now).compress (take (d.arity * d.node_size) row) }
{
    permutations::compress_at(
        d.arity * d.node_size,
        d.node_size,
        d.half,
        d.partial_rounds,
        diagonal,
        constants,
        &mut row,
        0,
        0,
    );
    let Some(node) = row.first_chunk::<6>() else {
        unreachable!();
    };
    *node
}

// Row n of the store is compressed and written as the node of number `leaves` + n: the count goes up by one.
pub fn rewrite_node(
    d: Dimensions,
    diagonal: &[u64; 12],
    constants: &[u64; 208],
    store: &mut [u64],
    leaves: usize,
    n: usize,
    count: u64,
) -> u64
    requires { (ValidSet d constants.now) × (n * (d.arity * d.node_size) + d.arity * d.node_size ≤ length store.old)
        × ((leaves + n) * d.node_size + d.node_size ≤ length store.old) × (count + 1 < 2 ^ 64) }
    ensures { (store.new ≡ (write_node (tree d diagonal.now constants.now) leaves n (counted store.old count)).store)
        × (result ≡ (write_node (tree d diagonal.now constants.now) leaves n (counted store.old count)).made) }
{
    let node_size = d.node_size;
    let width = d.arity * node_size;
    permutations::compress_at(
        width,
        node_size,
        d.half,
        d.partial_rounds,
        diagonal,
        constants,
        store,
        n * width,
        (leaves + n) * node_size,
    );
    count + 1
}
