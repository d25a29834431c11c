// Poseidon2 modulo the prime in use, by which the other crates reach a core: one call a compression, and none a word.
#![tactic(auto)]

ghost use Rattle.std.specs.Prelude.{◌≡◌, ◌+◌, ◌*◌, ◌≤◌, length, take, drop};
ghost use Rattle.std.proofs.Math.Seq.{paste};
ghost use Rattle.poseidon2.specs.Layers.{sums, m4_blocks};
ghost use Rattle.poseidon2.specs.Rounds.{permute};
ghost use Rattle.poseidon2.specs.Compression.{compress};
ghost use Rattle.poseidon2.specs.Statements.{Width, Words};
ghost use Rattle.fields.specs.Prime.{prime};
ghost use Rattle.inversion.specs.Kept.{UnpermuteInput, unpermute_by};

// The permutation of a state, in its place.
pub fn permute(
    width: usize,
    half: usize,
    partial_rounds: usize,
    diagonal: &[u64; 12],
    constants: &[u64; 208],
    state: &mut [u64],
)
    requires { (Width width) × (1 ≤ half) × (half ≤ 6) × (partial_rounds ≤ 64) × (Words prime (take (width * (2 * half) + partial_rounds) constants.now)) × (length state.old ≡ width) }
    ensures { state.new ≡ permute prime half partial_rounds diagonal.now constants.now state.old }
{
    permutation::permute(width, half, partial_rounds, diagonal, constants, state);
}

// The compression of a row to a node.
pub fn compress(
    width: usize,
    node_size: usize,
    half: usize,
    partial_rounds: usize,
    diagonal: &[u64; 12],
    constants: &[u64; 208],
    row: &[u64],
    node: &mut [u64],
)
    requires { (Width width) × (node_size ≤ width) × (1 ≤ half) × (half ≤ 6) × (partial_rounds ≤ 64) × (Words prime (take (width * (2 * half) + partial_rounds) constants.now)) × (length row.now ≡ width) × (length node.old ≡ node_size) }
    ensures { node.new ≡ compress prime node_size half partial_rounds diagonal.now constants.now row.now }
{
    permutation::compress(
        width,
        node_size,
        half,
        partial_rounds,
        diagonal,
        constants,
        row,
        node,
    );
}

// The row of a store from `from` on is compressed, and its node written from `to` on.
pub fn compress_at(
    width: usize,
    node_size: usize,
    half: usize,
    partial_rounds: usize,
    diagonal: &[u64; 12],
    constants: &[u64; 208],
    store: &mut [u64],
    from: usize,
    to: usize,
)
    requires { (Width width) × (node_size ≤ width) × (1 ≤ half) × (half ≤ 6) × (partial_rounds ≤ 64) × (Words prime (take (width * (2 * half) + partial_rounds) constants.now)) × (from + width ≤ length store.old) × (to + node_size ≤ length store.old) }
    ensures { store.new ≡ paste store.old to (compress prime node_size half partial_rounds diagonal.now constants.now (take width (drop from store.old))) node_size }
{
    permutation::compress_at(
        width,
        node_size,
        half,
        partial_rounds,
        diagonal,
        constants,
        store,
        from,
        to,
    );
}

// The inverse permutation of a state, in its place, from the inverses of the words of D and that of 1 plus their sum.
pub fn unpermute(
    width: usize,
    half: usize,
    partial_rounds: usize,
    inverses: &[u64; 12],
    total_inverse: u64,
    constants: &[u64; 208],
    state: &mut [u64],
)
    requires { UnpermuteInput prime width half partial_rounds constants.now state.old }
    ensures { state.new ≡ unpermute_by prime width half partial_rounds inverses.now total_inverse constants.now state.old }
{
    inversion::unpermute(
        width,
        half,
        partial_rounds,
        inverses,
        total_inverse,
        constants,
        state,
    );
}

// The first half of M_E, the sums, of numbers below 2^32: from a list to a state.
pub fn sums(width: usize, list: &[u64], state: &mut [u64])
    requires { (Width width) × (length list.now ≡ width) × (Words 4294967296 list.now) × (length state.old ≡ width) }
    ensures { state.new ≡ sums prime list.now }
{
    permutation::halves::sums(width, list, state);
}

// The second half, M4 in each block, of numbers that are at most four times as large.
pub fn m4_blocks(width: usize, list: &[u64], state: &mut [u64])
    requires { (Width width) × (length list.now ≡ width) × (Words 17179869181 list.now) × (length state.old ≡ width) }
    ensures { state.new ≡ m4_blocks prime list.now }
{
    permutation::halves::m4_blocks(width, list, state);
}
