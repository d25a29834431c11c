// Words in step: a state is B blocks of four. The chain is a loop over its steps, and what it calls is joined with it, so that the loop of
// squarings stands in one place, where the compiler keeps the words in registers.
ghost use Rattle.std.specs.Prelude.{◌≡◌, ◌^◌};
ghost use Rattle.modular.specs.Goldilocks.{p};
ghost use Rattle.poseidon2.specs.Inverse.{seventh_roots};
ghost use Rattle.poseidon2.specs.Residues.{residues};
ghost use Rattle.poseidon2.specs.Statements.{Words};
ghost use Rattle.blocks.specs.Blocks.{four, flat};
ghost use Rattle.roots.specs.Powers.{products, powers};

use field::lazy::{product, residue, square};

// The products of two blocks, word by word.
fn times4(a: [u64; 4], b: [u64; 4]) -> [u64; 4]
    ensures { residues p (four result) ≡ products p (four a) (four b) }
{
    [
        product(a[0], b[0]),
        product(a[1], b[1]),
        product(a[2], b[2]),
        product(a[3], b[3]),
    ]
}

// The squares of a block.
fn squares4(x: [u64; 4]) -> [u64; 4]
    ensures { residues p (four result) ≡ products p (four x) (four x) }
{
    [square(x[0]), square(x[1]), square(x[2]), square(x[3])]
}

// The words that a block stands for.
fn words4(x: [u64; 4]) -> [u64; 4]
    ensures { four result ≡ residues p (four x) }
{
    [residue(x[0]), residue(x[1]), residue(x[2]), residue(x[3])]
}

// The same of each block of a state.
#[inline(always)]
fn times<const B: usize>(a: [[u64; 4]; B], b: [[u64; 4]; B]) -> [[u64; 4]; B]
    ensures { residues p (flat B result) ≡ products p (flat B a.entry) (flat B b.entry) }
{
    let mut r = a;
    for i in 0..B {
        r[i] = times4(a[i], b[i]);
    }
    r
}

#[inline(always)]
fn squares<const B: usize>(x: [[u64; 4]; B]) -> [[u64; 4]; B]
    ensures { residues p (flat B result) ≡ products p (flat B x.entry) (flat B x.entry) }
{
    let mut r = x;
    for i in 0..B {
        r[i] = squares4(x[i]);
    }
    r
}

#[inline(always)]
fn words<const B: usize>(x: [[u64; 4]; B]) -> [[u64; 4]; B]
    ensures { flat B result ≡ residues p (flat B x.entry) }
{
    let mut r = x;
    for i in 0..B {
        r[i] = words4(x[i]);
    }
    r
}

// A state squared n times, times another.
#[inline(always)]
fn raised<const B: usize>(x: [[u64; 4]; B], n: usize, y: [[u64; 4]; B]) -> [[u64; 4]; B]
    ensures { residues p (flat B result) ≡ products p (powers p (2 ^ n) (flat B x.entry)) (flat B y.entry) }
{
    let mut r = x;
    for _ in 0..n {
        r = squares(r);
    }
    times(r, y)
}

// What a step of the chain multiplies by.
#[derive(Clone, Copy)]
enum Factor {
    // The words themselves.
    Word,
    // The numbers reached.
    Reached,
    // The same as the step before.
    Same,
}

// The chain: how often each step squares the numbers reached, and what it multiplies them by then. The ones at the end of the exponent are
// reached one by one.
const CHAIN: [(usize, Factor); 9] = [
    (3, Factor::Word),
    (6, Factor::Reached),
    (3, Factor::Word),
    (15, Factor::Reached),
    (31, Factor::Reached),
    (1, Factor::Same),
    (2, Factor::Word),
    (1, Factor::Word),
    (1, Factor::Word),
];

// The seventh roots of a state's words.
pub fn seventh_roots<const B: usize>(y: [[u64; 4]; B]) -> [[u64; 4]; B]
    requires { Words p (flat B y) }
    ensures { flat B result ≡ seventh_roots p (flat B y.entry) }
{
    let mut r = y;
    let mut factor = y;
    for (squarings, by) in CHAIN {
        factor = match by {
            Factor::Word => y,
            Factor::Reached => r,
            Factor::Same => factor,
        };
        r = raised(r, squarings, factor);
    }
    words(r)
}
