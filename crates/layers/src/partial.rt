// A partial round. Word 0 comes with the round's constant added, and leaves with the next round's, so that a partial round of
// constant 0 is what is said of it. The sum of the other words is made before the power is, and the power goes to the next one by
// a single product.
ghost use Rattle.std.specs.Prelude.{◌≡◌, ℕ, ◌+◌, ◌*◌, ◌%◌, ◌^◌, ◌<◌, ◌≤◌, [], ◌∷◌, ◌++◌, take, drop, slice_index_or};
ghost use Rattle.modular.specs.Congruence.{◌≈⟨◌⟩◌};
ghost use Rattle.modular.specs.Goldilocks.{p};
ghost use Rattle.poseidon2.specs.Layers.{sum, plus_multiples};
ghost use Rattle.poseidon2.specs.Rounds.{add_constants, partial_round};
ghost use Rattle.poseidon2.specs.Residues.{residues};
ghost use Rattle.blocks.specs.Blocks.{four, flat};

use field::lazy;
use std::marker::Model;

// A sum that passes 2^64; contracts see the number that it is. As a u128 the compiler makes one chain of all sums of a round: a permutation took
// 1.02 of the time at t = 12.
#[derive(Drop)]
struct Wide {
    high: u64,
    low: u64,
}

impl Model for Wide {
    ghost Value = { ℕ };

    ghost view = { λ w. w.high * 18446744073709551616 + w.low };
}

fn widen(x: u64) -> Wide
    ensures { (result ≡ x) × (result ≤ 18446744073709551616) }
{
    Wide { high: 0, low: x }
}

fn add_word(total: Wide, x: u64) -> Wide
    requires { total < 2 ^ 80 }
    ensures { (result ≡ total + x) × (result ≤ total + 18446744073709551616) }
{
    let (low, carried) = total.low.overflowing_add(x);
    Wide {
        high: total.high + carried as u64,
        low,
    }
}

fn add_block(total: Wide, x: [u64; 4]) -> Wide
    requires { total < 2 ^ 72 }
    ensures { (result ≡ total + sum (four x)) × (result ≤ total + 73786976294838206464) }
{
    let a = add_word(total, x[0]);
    let b = add_word(a, x[1]);
    let c = add_word(b, x[2]);
    add_word(c, x[3])
}

// The word of two sums together.
fn word_of(a: Wide, b: Wide) -> u64
    requires { (a < 2 ^ 80) × (b < 2 ^ 80) }
    ensures { result ≡ (a + b) % p }
{
    let (low, carried) = a.low.overflowing_add(b.low);
    lazy::residue(lazy::fold(a.high + b.high + carried as u64, low))
}

// The sum of all words but word 0, in two chains that take turns.
fn others<const B: usize>(s: [[u64; 4]; B]) -> u64
    requires { (1 ≤ B) × (B ≤ 3) }
    ensures { result ≡ sum (drop 1 (flat B s.entry)) % p }
{
    let [_, a, b, c] = s[0];
    let mut chain = add_word(widen(a), b);
    let mut other = widen(c);
    for i in 1..B {
        let longer = add_block(other, s[i]);
        other = chain;
        chain = longer;
    }
    word_of(chain, other)
}

// q and D from place `at` on times the words.
fn multiples_block(x: [u64; 4], diagonal: &[u64; 12], at: usize, q: u64) -> [u64; 4]
    requires { at ≤ 8 }
    ensures { residues p (four result) ≡ plus_multiples p q (drop at diagonal.now) (four x) }
{
    [
        lazy::product_sum(diagonal[at], x[0], q),
        lazy::product_sum(diagonal[at + 1], x[1], q),
        lazy::product_sum(diagonal[at + 2], x[2], q),
        lazy::product_sum(diagonal[at + 3], x[3], q),
    ]
}

// The same of the blocks behind the first, in whose place `first` is put. Apart from `partial`, this keeps the new word 0, for which the next
// round waits, before them: with the loop in one function a permutation took 1.05 of the time at t = 8.
fn multiples<const B: usize>(
    s: [[u64; 4]; B],
    first: [u64; 4],
    diagonal: &[u64; 12],
    q: u64,
) -> [[u64; 4]; B]
    requires { (1 ≤ B) × (B ≤ 3) }
    ensures { residues p (flat B result) ≡ residues p (four first) ++ plus_multiples p q (drop 4 diagonal.now) (drop 4 (flat B s.entry)) }
{
    let mut next = s;
    next[0] = first;
    for i in 1..B {
        next[i] = multiples_block(s[i], diagonal, 4 * i, q);
    }
    next
}

// e stands for D_0 + 1, and c is the next round's constant.
pub fn partial<const B: usize>(
    s: [[u64; 4]; B],
    diagonal: &[u64; 12],
    e: u64,
    c: u64,
) -> [[u64; 4]; B]
    requires { (1 ≤ B) × (B ≤ 3) × (c < p) × (e ≈⟨ p ⟩ slice_index_or diagonal.now 0 0 + 1) }
    ensures { residues p (flat B result) ≡ add_constants p (c ∷ []) (partial_round p (take (4 * B) diagonal.now) 0 (flat B s.entry)) }
{
    let x = s[0];
    let w = lazy::seventh_power(x[0]);
    let r = others(s);
    let t = lazy::sum(r, c);
    let q = lazy::sum(w, r);
    let first = [
        lazy::product_sum(e, w, t),
        lazy::product_sum(diagonal[1], x[1], q),
        lazy::product_sum(diagonal[2], x[2], q),
        lazy::product_sum(diagonal[3], x[3], q),
    ];
    multiples(s, first, diagonal, q)
}
