// The leaf of a file (Rules 7.7 to 7.10).
#![tactic(auto)]

mod message;

ghost use Rattle.std.specs.Prelude.{◌≡◌, [], ◌∷◌, ◌++◌, ◌+◌, ◌*◌, ◌/◌, ◌^◌, ◌≤◌, ◌<◌, length, take, drop};
ghost use Rattle.modular.specs.Arithmetic.{add};
ghost use Rattle.poseidon2.specs.Rounds.{permute};
ghost use Rattle.poseidon2.specs.Statements.{Width, Words};
ghost use Rattle.octets.specs.Numbers.{numbers_of};
ghost use Rattle.blobs.specs.Blob.{blob_head, file_words};
ghost use Rattle.blobs.specs.Absorption.{add_block, absorb, file_leaf};
ghost use Rattle.fields.specs.Prime.{prime, word_bytes};

// A word of the state with one of the message added.
fn added(old: u64, word: u64) -> u64
    requires { (old < prime) × (word < 256 ^ word_bytes) }
    ensures { result ≡ add prime old word }
{
    fields::sum(old, word)
}

// A message block of the bytes at the beginning of a list, added to the first words of the state. Eight bytes stand behind it at least, so
// that each word is read at once.
fn add_inner(rate: usize, bytes: &[u8], state: &mut [u64])
    requires { (rate ≤ length state.old) × (rate ≤ 12) × (word_bytes * rate + 8 ≤ length bytes.now) × (Words prime state.old) }
    ensures { state.new ≡ add_block prime rate (numbers_of word_bytes rate bytes.now) state.old }
{
    let size = fields::word_bytes();
    for i in 0..rate {
        let at = size * i;
        let word = encoding::low_bytes(encoding::number_of(&bytes[at..]), size);
        state[i] = added(state[i], word);
    }
}

// The message block that begins at a byte of the padded message, byte by byte. One function for both, over what reads a word, would need a
// contract for that longer than this loop.
fn add_edge(rate: usize, head: &[u8], contents: &[u8], from: usize, state: &mut [u64])
    requires { (rate ≤ length state.old) × (rate ≤ 12) × (from ≤ 8589934592) × (Words prime state.old) }
    ensures { state.new ≡ add_block prime rate (numbers_of word_bytes rate (drop from (head.now ++ (contents.now ++ (1 ∷ []))))) state.old }
{
    let size = fields::word_bytes();
    for i in 0..rate {
        let word = message::gathered(head, contents, from + size * i);
        state[i] = added(state[i], word);
    }
}

// The message block that begins at a byte of the padded message, added to the first words of the state.
fn add_block(rate: usize, head: &[u8], contents: &[u8], from: usize, state: &mut [u64])
    requires { (rate ≤ length state.old) × (rate ≤ 12) × (from ≤ 8589934592) × (Words prime state.old) }
    ensures { state.new ≡ add_block prime rate (numbers_of word_bytes rate (drop from (head.now ++ (contents.now ++ (1 ∷ []))))) state.old }
{
    let count = fields::word_bytes() * rate + 8;
    if message::inside(head, contents, from, count) {
        let start = from - head.len();
        add_inner(rate, &contents[start..], state);
        return;
    }
    add_edge(rate, head, contents, from, state);
}

// All message blocks of a file: each is added, and the state permuted.
fn absorb(
    width: usize,
    rate: usize,
    half: usize,
    partial_rounds: usize,
    diagonal: &[u64; 12],
    constants: &[u64; 208],
    head: &[u8],
    contents: &[u8],
    state: &mut [u64],
)
    requires { (Width width) × (1 ≤ half) × (half ≤ 6) × (partial_rounds ≤ 64) × (Words prime (take (width * (2 * half) + partial_rounds) constants.now))
        × (1 ≤ rate) × (rate ≤ width) × (head.now ≡ blob_head (length contents.now)) × (length head.now ≤ 16) × (length contents.now ≤ 4294967295)
        × (length state.old ≡ width) × (Words prime state.old) }
    ensures { state.new ≡ absorb prime rate (permute prime half partial_rounds diagonal.now constants.now) (length (file_words word_bytes rate contents.now) / rate) (file_words word_bytes rate contents.now) state.old }
{
    let size = fields::word_bytes() * rate;
    let blocks = (head.len() + contents.len()) / size + 1;
    for n in 0..blocks {
        add_block(rate, head, contents, size * n, state);
        permutations::permute(width, half, partial_rounds, diagonal, constants, state);
    }
}

// The leaf of a file. Of its message only the bytes before the contents are held.
pub fn leaf_of(
    width: usize,
    node_size: usize,
    half: usize,
    partial_rounds: usize,
    diagonal: &[u64; 12],
    constants: &[u64; 208],
    contents: &[u8],
    leaf: &mut [u64],
)
    requires { (Width width) × (node_size < width) × (1 ≤ half) × (half ≤ 6) × (partial_rounds ≤ 64) × (Words prime (take (width * (2 * half) + partial_rounds) constants.now)) × (length contents.now ≤ 4294967295) × (length leaf.old ≡ node_size) }
    ensures { leaf.new ≡ file_leaf prime word_bytes width node_size (permute prime half partial_rounds diagonal.now constants.now) contents.now }
{
    let mut head = [0u8; 16];
    let end = message::put_head(contents.len() as u64, &mut head);
    let mut places = [0u64; 12];
    let state = &mut places[..width];
    absorb(
        width,
        width - node_size,
        half,
        partial_rounds,
        diagonal,
        constants,
        &head[..end],
        contents,
        state,
    );
    trees::nodes::copy_words(state, 0, node_size, leaf, 0);
}
