// What the benchmark calls beside the library's own C functions: a permutation and a compression without validation, the halves of M_E, and the
// passes of a push over its records. They require what a validated set gives, and the halves numbers as small as the layer hands them.
#![tactic(auto)]

pub mod pushed;

ghost use Rattle.std.specs.Prelude.{◌≡◌, ◌≤◌, length};
ghost use Rattle.fields.specs.Prime.{prime};
ghost use Rattle.poseidon2.specs.Layers.{sums, m4_blocks};
ghost use Rattle.poseidon2.specs.Rounds.{permute};
ghost use Rattle.poseidon2.specs.Compression.{compress};
ghost use Rattle.poseidon2.specs.Statements.{Width, Words};
ghost use Rattle.measures.specs.Measured.{Validated};

// One permutation, without validation.
#[unsafe(no_mangle)]
pub extern "C" fn measured_permute(
    width: usize,
    half: usize,
    partial_rounds: usize,
    diagonal: &[u64; 12],
    constants: &[u64; 208],
    state: &mut [u64],
)
    requires { Validated width half partial_rounds constants.now × (length state.old ≡ width) }
    ensures { state.new ≡ permute prime half partial_rounds diagonal.now constants.now state.old }
{
    permutations::permute(width, half, partial_rounds, diagonal, constants, state);
}

// One compression, without validation.
#[unsafe(no_mangle)]
pub extern "C" fn measured_compress(
    width: usize,
    node_size: usize,
    half: usize,
    partial_rounds: usize,
    diagonal: &[u64; 12],
    constants: &[u64; 208],
    row: &[u64],
    node: &mut [u64],
)
    requires { Validated width half partial_rounds constants.now × (node_size ≤ width) × (length row.now ≡ width) × (length node.old ≡ node_size) }
    ensures { node.new ≡ compress prime node_size half partial_rounds diagonal.now constants.now row.now }
{
    permutations::compress(
        width,
        node_size,
        half,
        partial_rounds,
        diagonal,
        constants,
        row,
        node,
    );
}

// The first half of M_E, the sums, of numbers below 2^32: from a list to a state.
#[unsafe(no_mangle)]
pub extern "C" fn measured_sums(width: usize, list: &[u64], state: &mut [u64])
    requires { (Width width) × (length list.now ≡ width) × (Words 4294967296 list.now) × (length state.old ≡ width) }
    ensures { state.new ≡ sums prime list.now }
{
    permutations::sums(width, list, state);
}

// The second half, M4 in each block, of numbers that are at most four times as large.
#[unsafe(no_mangle)]
pub extern "C" fn measured_m4_blocks(width: usize, list: &[u64], state: &mut [u64])
    requires { (Width width) × (length list.now ≡ width) × (Words 17179869181 list.now) × (length state.old ≡ width) }
    ensures { state.new ≡ m4_blocks prime list.now }
{
    permutations::m4_blocks(width, list, state);
}
