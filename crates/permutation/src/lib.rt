// Poseidon2's permutation and compression of the numbers of slices. The width is looked at once a permutation: each public function calls one that
// is made for B blocks, and so for 4 * B words.
#![tactic(auto)]

pub mod halves;
mod rounds;

ghost use Rattle.std.specs.Prelude.{◌≡◌, ◌+◌, ◌*◌, ◌%◌, ◌≤◌, length, take, drop};
ghost use Rattle.std.proofs.Math.Seq.{paste};
ghost use Rattle.modular.specs.Arithmetic.{add};
ghost use Rattle.modular.specs.Goldilocks.{p};
ghost use Rattle.poseidon2.specs.Layers.{add_lists};
ghost use Rattle.poseidon2.specs.Rounds.{permute};
ghost use Rattle.poseidon2.specs.Compression.{compress};
ghost use Rattle.poseidon2.specs.Residues.{residues};
ghost use Rattle.poseidon2.specs.Statements.{Width, Words};
ghost use Rattle.blocks.specs.Blocks.{four, flat};

use field::lazy;

// The words that a block stands for.
fn block_words(x: [u64; 4]) -> [u64; 4]
    ensures { four result ≡ residues p (four x) }
{
    [
        lazy::residue(x[0]),
        lazy::residue(x[1]),
        lazy::residue(x[2]),
        lazy::residue(x[3]),
    ]
}

// The words that a state stands for.
fn words<const B: usize>(s: [[u64; 4]; B]) -> [[u64; 4]; B]
    ensures { flat B result ≡ residues p (flat B s.entry) }
{
    let mut words = s;
    for i in 0..B {
        words[i] = block_words(s[i]);
    }
    words
}

// The word of a sum of any two numbers.
fn sum_word(x: u64, y: u64) -> u64
    ensures { result ≡ add p (x % p) y }
{
    lazy::residue(lazy::sum(y, lazy::residue(x)))
}

// A block and the numbers of the list from `at` on, added word by word.
fn add_block(x: [u64; 4], list: &[u64], at: usize) -> [u64; 4]
    requires { at + 4 ≤ length list.now }
    ensures { four result ≡ add_lists p (residues p (four x)) (drop at list.now) }
{
    [
        sum_word(x[0], list[at]),
        sum_word(x[1], list[at + 1]),
        sum_word(x[2], list[at + 2]),
        sum_word(x[3], list[at + 3]),
    ]
}

// A state and the numbers of the list from `at` on, added word by word.
fn add_input<const B: usize>(s: [[u64; 4]; B], list: &[u64], at: usize) -> [[u64; 4]; B]
    requires { at + 4 * B ≤ length list.now }
    ensures { flat B result ≡ add_lists p (residues p (flat B s.entry)) (drop at list.now) }
{
    let mut added = s;
    for i in 0..B {
        added[i] = add_block(s[i], list, at + 4 * i);
    }
    added
}

// The first n words of a state, written from `at` on.
fn write<const B: usize>(s: [[u64; 4]; B], n: usize, list: &mut [u64], at: usize)
    requires { (n ≤ 4 * B) × (at + n ≤ length list.old) }
    ensures { list.new ≡ paste list.old at (flat B s.entry) n }
{
    for i in 0..n {
        list[at + i] = s[i / 4][i % 4];
    }
}

// A block, written from `at` on.
fn write_block(x: [u64; 4], list: &mut [u64], at: usize)
    requires { at + 4 ≤ length list.old }
    ensures { list.new ≡ paste list.old at (four x) 4 }
{
    list[at] = x[0];
    list[at + 1] = x[1];
    list[at + 2] = x[2];
    list[at + 3] = x[3];
}

// A state, written to a list of its length.
fn write_state<const B: usize>(s: [[u64; 4]; B], list: &mut [u64])
    requires { length list.old ≡ 4 * B }
    ensures { list.new ≡ flat B s.entry }
{
    for i in 0..B {
        write_block(s[i], list, 4 * i);
    }
}

fn permute_state<const B: usize>(
    half: usize,
    partial_rounds: usize,
    diagonal: &[u64; 12],
    constants: &[u64; 208],
    state: &mut [u64],
)
    requires { (1 ≤ B) × (B ≤ 3) × (1 ≤ half) × (half ≤ 6) × (partial_rounds ≤ 64) × (Words p (take (4 * B * (2 * half) + partial_rounds) constants.now)) × (length state.old ≡ 4 * B) }
    ensures { state.new ≡ permute p half partial_rounds diagonal.now constants.now state.old }
{
    let r = rounds::permute::<B>(half, partial_rounds, diagonal, constants, state, 0);
    write_state(words(r), state);
}

// The permutation of the numbers from `from` on, with them added.
fn compressed<const B: usize>(
    half: usize,
    partial_rounds: usize,
    diagonal: &[u64; 12],
    constants: &[u64; 208],
    list: &[u64],
    from: usize,
) -> [[u64; 4]; B]
    requires { (1 ≤ B) × (B ≤ 3) × (1 ≤ half) × (half ≤ 6) × (partial_rounds ≤ 64) × (Words p (take (4 * B * (2 * half) + partial_rounds) constants.now)) × (from + 4 * B ≤ length list.now) }
    ensures { flat B result ≡ add_lists p (permute p half partial_rounds diagonal.now constants.now (take (4 * B) (drop from list.now))) (take (4 * B) (drop from list.now)) }
{
    let r = rounds::permute::<B>(half, partial_rounds, diagonal, constants, list, from);
    add_input(r, list, from)
}

fn compress_row<const B: usize>(
    node_size: usize,
    half: usize,
    partial_rounds: usize,
    diagonal: &[u64; 12],
    constants: &[u64; 208],
    row: &[u64],
    node: &mut [u64],
)
    requires { (node_size ≤ 4 * B) × (1 ≤ B) × (B ≤ 3) × (1 ≤ half) × (half ≤ 6) × (partial_rounds ≤ 64) × (Words p (take (4 * B * (2 * half) + partial_rounds) constants.now)) × (length row.now ≡ 4 * B) × (length node.old ≡ node_size) }
    ensures { node.new ≡ compress p node_size half partial_rounds diagonal.now constants.now row.now }
{
    let r = compressed::<B>(half, partial_rounds, diagonal, constants, row, 0);
    write(r, node_size, node, 0);
}

fn compress_row_at<const B: usize>(
    node_size: usize,
    half: usize,
    partial_rounds: usize,
    diagonal: &[u64; 12],
    constants: &[u64; 208],
    store: &mut [u64],
    from: usize,
    to: usize,
)
    requires { (node_size ≤ 4 * B) × (1 ≤ B) × (B ≤ 3) × (1 ≤ half) × (half ≤ 6) × (partial_rounds ≤ 64) × (Words p (take (4 * B * (2 * half) + partial_rounds) constants.now)) × (from + 4 * B ≤ length store.old) × (to + node_size ≤ length store.old) }
    ensures { store.new ≡ paste store.old to (compress p node_size half partial_rounds diagonal.now constants.now (take (4 * B) (drop from store.old))) node_size }
{
    let r = compressed::<B>(half, partial_rounds, diagonal, constants, store, from);
    write(r, node_size, store, to);
}

// The permutation of a state, in its place.
pub fn permute(
    width: usize,
    half: usize,
    partial_rounds: usize,
    diagonal: &[u64; 12],
    constants: &[u64; 208],
    state: &mut [u64],
)
    requires { (Width width) × (1 ≤ half) × (half ≤ 6) × (partial_rounds ≤ 64) × (Words p (take (width * (2 * half) + partial_rounds) constants.now)) × (length state.old ≡ width) }
    ensures { state.new ≡ permute p half partial_rounds diagonal.now constants.now state.old }
{
    match width {
        4 => permute_state::<1>(half, partial_rounds, diagonal, constants, state),
        8 => permute_state::<2>(half, partial_rounds, diagonal, constants, state),
        _ => permute_state::<3>(half, partial_rounds, diagonal, constants, state),
    }
}

// The compression of a row to a node.
pub fn compress(
    width: usize,
    node_size: usize,
    half: usize,
    partial_rounds: usize,
    diagonal: &[u64; 12],
    constants: &[u64; 208],
    row: &[u64],
    node: &mut [u64],
)
    requires { (Width width) × (node_size ≤ width) × (1 ≤ half) × (half ≤ 6) × (partial_rounds ≤ 64) × (Words p (take (width * (2 * half) + partial_rounds) constants.now)) × (length row.now ≡ width) × (length node.old ≡ node_size) }
    ensures { node.new ≡ compress p node_size half partial_rounds diagonal.now constants.now row.now }
{
    match width {
        4 => compress_row::<1>(
            node_size,
            half,
            partial_rounds,
            diagonal,
            constants,
            row,
            node,
        ),
        8 => compress_row::<2>(
            node_size,
            half,
            partial_rounds,
            diagonal,
            constants,
            row,
            node,
        ),
        _ => compress_row::<3>(
            node_size,
            half,
            partial_rounds,
            diagonal,
            constants,
            row,
            node,
        ),
    }
}

// The row of a store from `from` on is compressed, and its node written from `to` on.
pub fn compress_at(
    width: usize,
    node_size: usize,
    half: usize,
    partial_rounds: usize,
    diagonal: &[u64; 12],
    constants: &[u64; 208],
    store: &mut [u64],
    from: usize,
    to: usize,
)
    requires { (Width width) × (node_size ≤ width) × (1 ≤ half) × (half ≤ 6) × (partial_rounds ≤ 64) × (Words p (take (width * (2 * half) + partial_rounds) constants.now)) × (from + width ≤ length store.old) × (to + node_size ≤ length store.old) }
    ensures { store.new ≡ paste store.old to (compress p node_size half partial_rounds diagonal.now constants.now (take width (drop from store.old))) node_size }
{
    match width {
        4 => compress_row_at::<1>(
            node_size,
            half,
            partial_rounds,
            diagonal,
            constants,
            store,
            from,
            to,
        ),
        8 => compress_row_at::<2>(
            node_size,
            half,
            partial_rounds,
            diagonal,
            constants,
            store,
            from,
            to,
        ),
        _ => compress_row_at::<3>(
            node_size,
            half,
            partial_rounds,
            diagonal,
            constants,
            store,
            from,
            to,
        ),
    }
}
