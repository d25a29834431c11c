// A full round undone: M_E, then every word's seventh root, less its constant. The roots are taken for all words at once.
ghost use Rattle.std.specs.Prelude.{◌≡◌, ◌+◌, ◌*◌, ◌≤◌, length, drop};
ghost use Rattle.fields.specs.Prime.{prime};
ghost use Rattle.poseidon2.specs.Inverse.{sub_lists, unfull_round};
ghost use Rattle.poseidon2.specs.Statements.{Width, Words};
ghost use Rattle.blocks.specs.Blocks.{four, flat};
ghost use Rattle.inversion.specs.Kept.{WordsBelow};

use crate::external::{read_blocks, unexternal_blocks, write_blocks};
use fields::{difference, seventh_roots};

// A block less the constants from place `at` on.
fn less(block: [u64; 4], constants: &[u64; 208], at: usize) -> [u64; 4]
    requires { (at + 4 ≤ 208) × WordsBelow prime (at + 4) constants.now × Words prime (four block) }
    ensures { four result ≡ sub_lists prime (four block) (drop at constants.now) }
{
    [
        difference(block[0], constants[at]),
        difference(block[1], constants[at + 1]),
        difference(block[2], constants[at + 2]),
        difference(block[3], constants[at + 3]),
    ]
}

// The same of the blocks of a state.
#[inline(always)]
fn less_blocks<const B: usize>(x: [[u64; 4]; B], constants: &[u64; 208], at: usize) -> [[u64; 4]; B]
    requires { (at + 4 * B ≤ 208) × WordsBelow prime (at + 4 * B) constants.now × Words prime (flat B x) }
    ensures { flat B result ≡ sub_lists prime (flat B x.entry) (drop at constants.now) }
{
    let mut r = x;
    for i in 0..B {
        r[i] = less(x[i], constants, at + 4 * i);
    }
    r
}

// A state of so many blocks.
fn unround_in<const B: usize>(constants: &[u64; 208], at: usize, state: &mut [u64])
    requires { (length state.old ≡ 4 * B) × Width (length state.old) × (at + 4 * B ≤ 208) × WordsBelow prime (at + 4 * B) constants.now × Words prime state.old }
    ensures { state.new ≡ unfull_round prime (drop at constants.now) state.old }
{
    let x: [[u64; 4]; B] = read_blocks(state);
    let r = seventh_roots(unexternal_blocks(x));
    write_blocks(less_blocks(r, constants, at), state);
}

// The constants are those from place `at` on.
pub fn unround(constants: &[u64; 208], at: usize, state: &mut [u64])
    requires { Width (length state.old) × (at + length state.old ≤ 208) × WordsBelow prime (at + length state.old) constants.now × Words prime state.old }
    ensures { state.new ≡ unfull_round prime (drop at constants.now) state.old }
{
    match state.len() {
        4 => unround_in::<1>(constants, at, state),
        8 => unround_in::<2>(constants, at, state),
        _ => unround_in::<3>(constants, at, state),
    }
}
