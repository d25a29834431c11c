// M_E (Rules 3.3) by its halves (Rules 3.10): the sums, and then M4 in each block. Nothing else makes M_E. A sum of numbers of 64 bits may pass
// 2^64. So the layer is made of the high parts of the numbers and of the low parts, x / 2^32 and x % 2^32, each by the one half after the other:
// a half then adds and nothing else, its contract says how large the numbers are, and each word is brought below 2^64 once, at the end.
ghost use Rattle.std.specs.Prelude.{◌≡◌, ◌+◌, ◌/◌, ◌%◌, ◌≤◌, map};
ghost use Rattle.modular.specs.Goldilocks.{p};
ghost use Rattle.poseidon2.specs.Layers.{external, sums, m4_blocks};
ghost use Rattle.poseidon2.specs.Residues.{residues};
ghost use Rattle.blocks.specs.Blocks.{four, flat};
ghost use Rattle.blocks.specs.Halves.{exact_m4, plus, total, joins, Within, AllWithin};

use field::lazy::join;

const HALF: u64 = 4294967296;

// ---- the sums: to each block the sum of all

// Two blocks, added word by word.
fn plus(a: [u64; 4], b: [u64; 4]) -> [u64; 4]
    requires { (Within 17179869180 a) × (Within 17179869180 b) }
    ensures { result ≡ plus a b }
{
    [a[0] + b[0], a[1] + b[1], a[2] + b[2], a[3] + b[3]]
}

// The sum of all blocks.
fn total<const B: usize>(s: [[u64; 4]; B]) -> [u64; 4]
    requires { (1 ≤ B) × (B ≤ 3) × (AllWithin 4294967295 B s) }
    ensures { (result ≡ total B s.entry) × (Within 12884901885 result) }
{
    let mut sum = [0, 0, 0, 0];
    for k in 0..B {
        let more = plus(sum, s[k]);
        sum = more;
    }
    sum
}

// A block alone has no sums.
pub fn sums<const B: usize>(s: [[u64; 4]; B]) -> [[u64; 4]; B]
    requires { (1 ≤ B) × (B ≤ 3) × (AllWithin 4294967295 B s) }
    ensures { (flat B result ≡ sums p (flat B s.entry)) × (AllWithin 17179869180 B result) }
{
    if B == 1 {
        return s;
    }
    let sum = total(s);
    let mut summed = s;
    for i in 0..B {
        summed[i] = plus(s[i], sum);
    }
    summed
}

// ---- M4 in each block

// M4 of four numbers, by additions.
fn m4(x: [u64; 4]) -> [u64; 4]
    requires { Within 17179869180 x }
    ensures { (result ≡ exact_m4 (four x)) × (Within 274877906880 result) }
{
    let [a, b, c, d] = x;
    let t0 = a + b;
    let t1 = c + d;
    let t2 = 2 * b + t1;
    let t3 = 2 * d + t0;
    let t4 = 4 * t1 + t3;
    let t5 = 4 * t0 + t2;
    [t3 + t5, t5, t2 + t4, t4]
}

pub fn m4_blocks<const B: usize>(s: [[u64; 4]; B]) -> [[u64; 4]; B]
    requires { AllWithin 17179869180 B s }
    ensures { (flat B result ≡ m4_blocks p (flat B s.entry)) × (AllWithin 274877906880 B result) }
{
    let mut multiplied = s;
    for i in 0..B {
        multiplied[i] = m4(s[i]);
    }
    multiplied
}

// ---- the layer: the one after the other, for the high parts and for the low parts

fn low_block(x: [u64; 4]) -> [u64; 4]
    ensures { (four result ≡ map (λ n. n % 4294967296) (four x)) × (Within 4294967295 result) }
{
    [x[0] % HALF, x[1] % HALF, x[2] % HALF, x[3] % HALF]
}

fn high_block(x: [u64; 4]) -> [u64; 4]
    ensures { (four result ≡ map (λ n. n / 4294967296) (four x)) × (Within 4294967295 result) }
{
    [x[0] / HALF, x[1] / HALF, x[2] / HALF, x[3] / HALF]
}

fn lows<const B: usize>(s: [[u64; 4]; B]) -> [[u64; 4]; B]
    ensures { (flat B result ≡ map (λ n. n % 4294967296) (flat B s.entry)) × (AllWithin 4294967295 B result) }
{
    let mut parts = s;
    for i in 0..B {
        parts[i] = low_block(s[i]);
    }
    parts
}

fn highs<const B: usize>(s: [[u64; 4]; B]) -> [[u64; 4]; B]
    ensures { (flat B result ≡ map (λ n. n / 4294967296) (flat B s.entry)) × (AllWithin 4294967295 B result) }
{
    let mut parts = s;
    for i in 0..B {
        parts[i] = high_block(s[i]);
    }
    parts
}

fn join_block(h: [u64; 4], l: [u64; 4]) -> [u64; 4]
    requires { (Within 274877906880 h) × (Within 274877906880 l) }
    ensures { residues p (four result) ≡ residues p (joins (four h) (four l)) }
{
    [
        join(h[0], l[0]),
        join(h[1], l[1]),
        join(h[2], l[2]),
        join(h[3], l[3]),
    ]
}

fn join_blocks<const B: usize>(h: [[u64; 4]; B], l: [[u64; 4]; B]) -> [[u64; 4]; B]
    requires { (AllWithin 274877906880 B h) × (AllWithin 274877906880 B l) }
    ensures { residues p (flat B result) ≡ residues p (joins (flat B h.entry) (flat B l.entry)) }
{
    let mut joined = h;
    for i in 0..B {
        joined[i] = join_block(h[i], l[i]);
    }
    joined
}

pub fn external<const B: usize>(s: [[u64; 4]; B]) -> [[u64; 4]; B]
    requires { (1 ≤ B) × (B ≤ 3) }
    ensures { residues p (flat B result) ≡ external p (flat B s.entry) }
{
    let h = m4_blocks(sums(highs(s)));
    let l = m4_blocks(sums(lows(s)));
    join_blocks(h, l)
}
