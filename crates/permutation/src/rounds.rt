// The rounds in turn, and the permutation of the numbers of a list from a place on. All numbers are lazy: the words that they stand for
// are the permutation's.
ghost use Rattle.std.specs.Prelude.{◌≡◌, ◌+◌, ◌*◌, ◌<◌, ◌≤◌, length, get_or, take, drop};
ghost use Rattle.modular.specs.Congruence.{◌≈⟨◌⟩◌};
ghost use Rattle.modular.specs.Goldilocks.{p};
ghost use Rattle.poseidon2.specs.Layers.{external};
ghost use Rattle.poseidon2.specs.Rounds.{full_rounds, partial_rounds, permute};
ghost use Rattle.poseidon2.specs.Residues.{residues};
ghost use Rattle.poseidon2.specs.Statements.{Words};
ghost use Rattle.blocks.specs.Blocks.{four, flat};

use field::lazy;
use layers::{external, full, partial};

// The constant of partial round i of n, whose constants start at `at`, and 0 after the last.
fn next_constant(constants: &[u64; 208], at: usize, i: usize, n: usize) -> u64
    requires { (at ≤ 72) × (n ≤ 64) × (Words p (take (at + n) constants.now)) }
    ensures { (result ≡ get_or (take (at + n) constants.now) (at + i) 0) × (result < p) }
{
    if i < n { constants[at + i] } else { 0 }
}

// Four numbers of a list.
fn load_block(list: &[u64], at: usize) -> [u64; 4]
    requires { at + 4 ≤ length list.now }
    ensures { four result ≡ take 4 (drop at list.now) }
{
    [list[at], list[at + 1], list[at + 2], list[at + 3]]
}

// A state's numbers.
pub fn load<const B: usize>(list: &[u64], at: usize) -> [[u64; 4]; B]
    requires { at + 4 * B ≤ length list.now }
    ensures { flat B result ≡ take (4 * B) (drop at list.now) }
{
    let mut s = [[0, 0, 0, 0]; B];
    for i in 0..B {
        s[i] = load_block(list, at + 4 * i);
    }
    s
}

// The first entry of M_I's diagonal, D_0 + 1.
fn first_entry(diagonal: &[u64; 12]) -> u64
    ensures { result ≈⟨ p ⟩ get_or diagonal.now 0 0 + 1 }
{
    lazy::sum(diagonal[0], 1)
}

// M_E, and n full rounds, each of which ends with it. The loop is left after M_E, so that it has one place in the code. In a `for` it would have
// two, and be a call, which copies the state twice: a permutation took 1.08 of the time at t = 8 and 1.10 at t = 12.
fn full_rounds<const B: usize>(
    x: [[u64; 4]; B],
    constants: &[u64; 208],
    at: usize,
    n: usize,
) -> [[u64; 4]; B]
    requires { (1 ≤ B) × (B ≤ 3) × (n ≤ 6) × (at + 4 * B * n ≤ 208) × (Words p (take (at + 4 * B * n) constants.now)) }
    ensures { residues p (flat B result) ≡ full_rounds p (4 * B) n (drop at constants.now) (external p (flat B x.entry)) }
{
    let mut s = x;
    let mut i: usize = 0;
    loop {
        let r = external::external(s);
        if i >= n {
            return r;
        }
        let q = full::raise(r, constants, at + 4 * B * i);
        s = q;
        i += 1;
    }
}

fn partial_rounds<const B: usize>(
    x: [[u64; 4]; B],
    diagonal: &[u64; 12],
    constants: &[u64; 208],
    at: usize,
    n: usize,
) -> [[u64; 4]; B]
    requires { (1 ≤ B) × (B ≤ 3) × (at ≤ 72) × (n ≤ 64) × (Words p (take (at + n) constants.now)) }
    ensures { residues p (flat B result) ≡ partial_rounds p (take (4 * B) diagonal.now) n (drop at constants.now) (residues p (flat B x.entry)) }
{
    let e = first_entry(diagonal);
    let [a, b, c, d] = x[0];
    let mut s = x;
    s[0] = [lazy::sum(a, next_constant(constants, at, 0, n)), b, c, d];
    for i in 0..n {
        let r = partial::partial(s, diagonal, e, next_constant(constants, at, i + 1, n));
        s = r;
    }
    s
}

pub fn permute<const B: usize>(
    half: usize,
    partial_rounds: usize,
    diagonal: &[u64; 12],
    constants: &[u64; 208],
    list: &[u64],
    from: usize,
) -> [[u64; 4]; B]
    requires { (1 ≤ B) × (B ≤ 3) × (1 ≤ half) × (half ≤ 6) × (partial_rounds ≤ 64) × (Words p (take (4 * B * (2 * half) + partial_rounds) constants.now)) × (from + 4 * B ≤ length list.now) }
    ensures { residues p (flat B result) ≡ permute p half partial_rounds diagonal.now constants.now (take (4 * B) (drop from list.now)) }
{
    let x = load::<B>(list, from);
    let a = full_rounds(x, constants, 0, half);
    let b = self::partial_rounds(a, diagonal, constants, 4 * B * half, partial_rounds);
    let at = 4 * B * half + partial_rounds;
    let e = full::raise(b, constants, at);
    full_rounds(e, constants, at + 4 * B, half - 1)
}
