// Where the paths of two leaves collide: the lowest level at which their rows differ and compress alike, and a leaf's row there.
ghost use Rattle.std.specs.Prelude.{◌≡◌, ◌&&◌, not, ◌*◌, ◌-◌, ◌≤◌, ◌<◌, length, take};
ghost use Rattle.merkle.specs.Lists.{same, lowest};
ghost use Rattle.merkle.specs.Openings.{path_row};
ghost use Rattle.merkle.specs.Extraction.{collide_at};
ghost use Rattle.trees.specs.Shapes.{tree, ValidNumbers, ValidSet};
ghost use Rattle.paths.specs.Levels.{level_or};

use crate::{path_node, path_row};
use trees::{Dimensions, nodes};

// Whether two rows differ and the nodes that they compress to do not.
fn collide(
    d: Dimensions,
    row: [u64; 12],
    other_row: [u64; 12],
    node: [u64; 6],
    other: [u64; 6],
) -> bool
    requires { ValidNumbers d }
    ensures { result ≡ (not (same (take (d.arity * d.node_size) row) (take (d.arity * d.node_size) other_row))
        && same (take d.node_size node) (take d.node_size other)) }
{
    let width = d.arity * d.node_size;
    row[..width] != other_row[..width] && node[..d.node_size] == other[..d.node_size]
}

// The lowest level at which the rows of two leaves differ and compress alike, or the height. Both paths go up together, so each row is
// compressed once.
pub fn lowest_level(
    d: Dimensions,
    diagonal: &[u64; 12],
    constants: &[u64; 208],
    place: usize,
    first: &[u64],
    first_siblings: &[u64],
    second: &[u64],
    second_siblings: &[u64],
) -> usize
    requires { (ValidSet d constants.now) × (length first.now ≡ d.node_size) × (length first_siblings.now ≡ d.height * ((d.arity - 1) * d.node_size))
        × (length second.now ≡ d.node_size) × (length second_siblings.now ≡ d.height * ((d.arity - 1) * d.node_size)) }
    ensures { result ≡ level_or d.height (lowest (collide_at (tree d diagonal.now constants.now) place
        first.now first_siblings.now second.now second_siblings.now) d.height) }
{
    let arity = d.arity;
    let beside = (arity - 1) * d.node_size;
    let mut own = nodes::node_at(first, d.node_size, 0);
    let mut other = nodes::node_at(second, d.node_size, 0);
    let mut number = place;
    for j in 0..d.height {
        let row = path_row(d, own, first_siblings, j * beside, number % arity);
        let other_row = path_row(d, other, second_siblings, j * beside, number % arity);
        let next = nodes::compress_row(d, diagonal, constants, row);
        let other_next = nodes::compress_row(d, diagonal, constants, other_row);
        if collide(d, row, other_row, next, other_next) {
            return j;
        }
        own = next;
        other = other_next;
        number /= arity;
    }
    d.height
}

// The row of a level that a leaf and its siblings come to.
pub fn copy_row(
    d: Dimensions,
    diagonal: &[u64; 12],
    constants: &[u64; 208],
    place: usize,
    leaf: &[u64],
    siblings: &[u64],
    level: usize,
    row: &mut [u64],
)
    requires { (ValidSet d constants.now) × (length leaf.now ≡ d.node_size) × (level < d.height)
        × (length siblings.now ≡ d.height * ((d.arity - 1) * d.node_size)) × (length row.old ≡ d.arity * d.node_size) }
    ensures { row.new ≡ path_row (tree d diagonal.now constants.now) place leaf.now siblings.now level }
{
    let arity = d.arity;
    let own = path_node(d, diagonal, constants, place, leaf, siblings, level);
    let number = place / trees::leaf_count(arity, level);
    let beside = (arity - 1) * d.node_size;
    let made = path_row(d, own, siblings, level * beside, number % arity);
    nodes::copy_words(&made, 0, arity * d.node_size, row, 0);
}
