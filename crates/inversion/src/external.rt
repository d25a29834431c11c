// M_E undone on words: what it added to each block is taken off, and M4 is undone in each. It is done on blocks by value, which the compiler
// keeps in registers: so what does it is joined with the round or the end that calls it.
ghost use Rattle.std.specs.Prelude.{◌≡◌, ◌⊎◌, ◌++◌, ◌+◌, ◌*◌, ◌%◌, ◌<◌, ◌≤◌, length, take, drop};
ghost use Rattle.modular.specs.Arithmetic.{inverse};
ghost use Rattle.fields.specs.Prime.{prime};
ghost use Rattle.poseidon2.specs.Layers.{add_lists, blocks, sum_blocks};
ghost use Rattle.poseidon2.specs.Inverse.{negative, scaled, unm4, unexternal};
ghost use Rattle.poseidon2.specs.Statements.{Width, Words};
ghost use Rattle.blocks.specs.Blocks.{four, flat};

use fields::{difference, half, product, quarter, sum};

// The blocks of a state.
#[inline(always)]
pub fn read_blocks<const B: usize>(state: &[u64]) -> [[u64; 4]; B]
    requires { length state.now ≡ 4 * B }
    ensures { flat B result ≡ state.now }
{
    let mut x = [[0; 4]; B];
    x.copy_from_slice(state.as_chunks().0);
    x
}

// A block written from a place on.
fn write_block(block: [u64; 4], at: usize, state: &mut [u64])
    requires { at + 4 ≤ length state.old }
    ensures { state.new ≡ take at state.old ++ four block ++ drop (at + 4) state.old }
{
    state[at..at + 4].copy_from_slice(&block);
}

// A state written by its blocks.
#[inline(always)]
pub fn write_blocks<const B: usize>(x: [[u64; 4]; B], state: &mut [u64])
    requires { length state.old ≡ 4 * B }
    ensures { state.new ≡ flat B x.entry }
{
    for i in 0..B {
        write_block(x[i], 4 * i, state);
    }
}

// M4 undone, its sums from the last to the first.
fn unm4(x: [u64; 4]) -> [u64; 4]
    requires { Words prime (four x) }
    ensures { four result ≡ unm4 prime (four x) }
{
    let t3 = difference(x[0], x[1]);
    let t2 = difference(x[2], x[3]);
    let t1 = quarter(difference(x[3], t3));
    let t0 = quarter(difference(x[1], t2));
    let d = half(difference(t3, t0));
    let b = half(difference(t2, t1));
    [difference(t0, b), b, difference(t1, d), d]
}

// Two blocks added word by word.
fn add_blocks(a: [u64; 4], b: [u64; 4]) -> [u64; 4]
    requires { Words prime (four a) × Words prime (four b) }
    ensures { four result ≡ add_lists prime (four a) (four b) }
{
    [
        sum(a[0], b[0]),
        sum(a[1], b[1]),
        sum(a[2], b[2]),
        sum(a[3], b[3]),
    ]
}

// The sum of all blocks.
#[inline(always)]
fn sum_blocks<const B: usize>(x: [[u64; 4]; B]) -> [u64; 4]
    requires { (0 < B) × Words prime (flat B x) }
    ensures { four result ≡ sum_blocks prime (blocks (flat B x.entry)) }
{
    let mut total = x[0];
    for i in 1..B {
        let next = add_blocks(total, x[i]);
        total = next;
    }
    total
}

// Of two or three blocks, minus the third or the fourth part of their sum.
#[inline(always)]
fn share<const B: usize>(x: [[u64; 4]; B]) -> [u64; 4]
    requires { ((B ≡ 2) ⊎ (B ≡ 3)) × Words prime (flat B x) }
    ensures { four result ≡ scaled prime (negative prime (inverse prime ((1 + B) % prime))) (sum_blocks prime (blocks (flat B x.entry))) }
{
    let part = if B == 2 {
        fields::minus_third()
    } else {
        fields::minus_quarter()
    };
    let s = sum_blocks(x);
    [
        product(part, s[0]),
        product(part, s[1]),
        product(part, s[2]),
        product(part, s[3]),
    ]
}

// M_E undone. A block alone got nothing from others.
#[inline(always)]
pub fn unexternal_blocks<const B: usize>(x: [[u64; 4]; B]) -> [[u64; 4]; B]
    requires { Width (4 * B) × Words prime (flat B x) }
    ensures { flat B result ≡ unexternal prime (flat B x.entry) }
{
    let added = if B == 1 { [0; 4] } else { share(x) };
    let mut r = x;
    for i in 0..B {
        r[i] = unm4(add_blocks(x[i], added));
    }
    r
}

// The same in a state of so many blocks.
fn unexternal_in<const B: usize>(state: &mut [u64])
    requires { (length state.old ≡ 4 * B) × Width (length state.old) × Words prime state.old }
    ensures { state.new ≡ unexternal prime state.old }
{
    let x: [[u64; 4]; B] = read_blocks(state);
    write_blocks(unexternal_blocks(x), state);
}

// And in a state of any width.
pub fn unexternal(state: &mut [u64])
    requires { Width (length state.old) × Words prime state.old }
    ensures { state.new ≡ unexternal prime state.old }
{
    match state.len() {
        4 => unexternal_in::<1>(state),
        8 => unexternal_in::<2>(state),
        _ => unexternal_in::<3>(state),
    }
}
