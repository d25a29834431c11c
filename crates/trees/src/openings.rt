// The opening of a place, read from a store.
ghost use Rattle.std.specs.Prelude.{◌≡◌, List, ℕ, ◌+◌, ◌*◌, ◌-◌, ◌^◌, ◌≤◌, ◌<◌, length};
ghost use Rattle.modular.specs.Arithmetic.{all_words};
ghost use Rattle.merkle.specs.Levels.{size, row};
ghost use Rattle.merkle.specs.Lists.{part, put};
ghost use Rattle.merkle.specs.Openings.{without, opening};
ghost use Rattle.trees.specs.Shapes.{prime_of_tree, tree, ValidNumbers};

use crate::{Dimensions, nodes, sizes};

// Two parts of a list are copied to the target from `to` on, the one behind the other.
fn copy_two(
    source: &[u64],
    from: usize,
    count: usize,
    then: usize,
    more: usize,
    target: &mut [u64],
    to: usize,
)
    requires { (from + count ≤ length source.now) × (then + more ≤ length source.now) × (to + count + more ≤ length target.old) }
    ensures { target.new ≡ put (put target.old to (part from count source.now)) (to + count) (part then more source.now) }
{
    nodes::copy_words(source, from, count, target, to);
    nodes::copy_words(source, then, more, target, to + count);
}

// Row n of the store without its node c is copied to the target from `to` on.
fn copy_siblings(d: Dimensions, store: &[u64], n: usize, c: usize, target: &mut [u64], to: usize)
    requires { (ValidNumbers d) × (n * (d.arity * d.node_size) + d.arity * d.node_size ≤ length store.now) × (c < d.arity)
        × (to + (d.arity - 1) * d.node_size ≤ length target.old) }
    ensures { (D C : List ℕ) → target.new ≡ put target.old to (without (tree d D C) c (row (tree d D C) n store.now)) }
{
    let node_size = d.node_size;
    let width = d.arity * node_size;
    let start = n * width;
    let before = c * node_size;
    let behind = start + before + node_size;
    let rest = width - before - node_size;
    copy_two(store, start, before, behind, rest, target, to);
}

// The siblings of the h nodes from the place on, ascending. Each climb has its own loop: an iterator of the numbers would be a type with
// laws in place of two lines.
pub fn open(d: Dimensions, store: &[u64], place: usize, siblings: &mut [u64])
    requires { (ValidNumbers d) × ((D C : List ℕ) → length store.now ≡ size (tree d D C) d.height) × (place < d.arity ^ d.height)
        × (length siblings.old ≡ d.height * ((d.arity - 1) * d.node_size)) }
    ensures { (D C : List ℕ) → siblings.new ≡ opening (tree d D C) d.height place store.now }
{
    let arity = d.arity;
    let height = d.height;
    let leaves = sizes::leaf_count(arity, height);
    let beside = (arity - 1) * d.node_size;
    let mut number = place;
    for level in 0..height {
        let n = number / arity;
        copy_siblings(d, store, n, number % arity, siblings, level * beside);
        number = leaves + n;
    }
}

// Whether row n of the store without its node c is words.
fn siblings_are_words(d: Dimensions, store: &[u64], n: usize, c: usize) -> bool
    requires { (ValidNumbers d) × (n * (d.arity * d.node_size) + d.arity * d.node_size ≤ length store.now) × (c < d.arity) }
    ensures { (D C : List ℕ) → result ≡ all_words (prime_of_tree d) (without (tree d D C) c (row (tree d D C) n store.now)) }
{
    let node_size = d.node_size;
    let width = d.arity * node_size;
    let start = n * width;
    let own = start + c * node_size;
    let behind = own + node_size;
    let end = start + width;
    parameters::few_words(&store[start..own]) && parameters::few_words(&store[behind..end])
}

// Whether the opening is words: it reads what `open` copies.
pub fn opening_is_words(d: Dimensions, store: &[u64], place: usize) -> bool
    requires { (ValidNumbers d) × ((D C : List ℕ) → length store.now ≡ size (tree d D C) d.height) × (place < d.arity ^ d.height) }
    ensures { (D C : List ℕ) → result ≡ all_words (prime_of_tree d) (opening (tree d D C) d.height place store.now) }
{
    let arity = d.arity;
    let height = d.height;
    let leaves = sizes::leaf_count(arity, height);
    let mut number = place;
    for _ in 0..height {
        let n = number / arity;
        if !siblings_are_words(d, store, n, number % arity) {
            return false;
        }
        number = leaves + n;
    }
    true
}

// `size` words from the level's place on.
pub fn cut<'a>(siblings: &'a [u64], size: usize, level: usize) -> &'a [u64]
    requires { level * size + size ≤ length siblings.now }
    ensures { result.now ≡ part (level * size) size siblings.now }
{
    let from = level * size;
    let to = from + size;
    &siblings[from..to]
}
