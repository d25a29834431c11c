// The root, from the leaves alone (Rules 7.4).
#![tactic(auto)]

ghost use Rattle.std.specs.Prelude.{◌≡◌, ◌++◌, ◌+◌, ◌*◌, ◌^◌, ◌≤◌, length, take};
ghost use Rattle.merkle.specs.Lists.{part};
ghost use Rattle.merkle.specs.Storeless.{node_of, row_of, storeless_root};
ghost use Rattle.trees.specs.Shapes.{tree, ValidSet};
ghost use Rattle.storeless.specs.Within.{Within};

use trees::{Dimensions, nodes};

// The first places of a row, then a node.
fn put_node(row: [u64; 12], at: usize, node: [u64; 6], node_size: usize) -> [u64; 12]
    requires { (at + node_size ≤ 12) × (node_size ≤ 6) }
    ensures { take (at + node_size) result ≡ take at row ++ take node_size node }
{
    let mut next = row;
    nodes::copy_words(&node, 0, node_size, &mut next, at);
    next
}

// The `count` words of the leaves from `from` on, in the first places of a row.
fn leaf_row(leaves: &[u64], from: usize, count: usize) -> [u64; 12]
    requires { (from + count ≤ length leaves.now) × (count ≤ 12) }
    ensures { take count result ≡ part from count leaves.now }
{
    let mut row = [0u64; 12];
    nodes::copy_words(leaves, from, count, &mut row, 0);
    row
}

// Node i of a level: a leaf, or the compression of its row.
#[cycle(node_row)]
fn node(
    d: Dimensions,
    diagonal: &[u64; 12],
    constants: &[u64; 208],
    leaves: &[u64],
    level: usize,
    i: usize,
) -> [u64; 6]
    requires { Within d constants.now leaves.now level i 1 }
    ensures { take d.node_size result ≡ node_of (tree d diagonal.now constants.now) leaves.now level i }
{
    if level == 0 {
        return nodes::node_at(leaves, d.node_size, i);
    }
    let arity = d.arity;
    let x = row(d, diagonal, constants, leaves, level - 1, arity * i, arity);
    nodes::compress_row(d, diagonal, constants, x)
}

// The n nodes of a level from the first on, node by node. Leaves are copied at once. Node and row call one another, the level and the count of
// nodes falling: the customer names this form, so no loop stands for it.
#[cycle(node_row)]
fn row(
    d: Dimensions,
    diagonal: &[u64; 12],
    constants: &[u64; 208],
    leaves: &[u64],
    level: usize,
    first: usize,
    n: usize,
) -> [u64; 12]
    requires { Within d constants.now leaves.now level first n }
    ensures { take (n * d.node_size) result ≡ row_of (tree d diagonal.now constants.now) leaves.now level first n }
{
    let node_size = d.node_size;
    if level == 0 {
        return leaf_row(leaves, first * node_size, n * node_size);
    }
    if n == 0 {
        return [0u64; 12];
    }
    let m = n - 1;
    let before = row(d, diagonal, constants, leaves, level, first, m);
    let x = node(d, diagonal, constants, leaves, level, first + m);
    put_node(before, m * node_size, x, node_size)
}

// The root of the leaves.
pub fn storeless_root(
    d: Dimensions,
    diagonal: &[u64; 12],
    constants: &[u64; 208],
    leaves: &[u64],
    node: &mut [u64],
)
    requires { (ValidSet d constants.now) × (length leaves.now ≡ d.arity ^ d.height * d.node_size) × (length node.old ≡ d.node_size) }
    ensures { node.new ≡ storeless_root (tree d diagonal.now constants.now) d.height leaves.now }
{
    let x = self::node(d, diagonal, constants, leaves, d.height, 0);
    nodes::copy_words(&x, 0, d.node_size, node, 0);
}
