// The field of p = 2^64 - 2^32 + 1 on words, the numbers below p (Rules 1). The fast path's numbers are in `lazy`.
#![tactic(auto)]

pub mod lazy;
pub mod parts;

ghost use Rattle.std.specs.Prelude.{◌≡◌, ◌<◌};
ghost use Rattle.modular.specs.Arithmetic.{add, sub, mul, pow, inverse};
ghost use Rattle.modular.specs.Goldilocks.{p};

use std::num::{wrapping_add_u64, wrapping_sub_u64};

pub const P: u64 = 18446744069414584321;

// The bytes of a file that make a word: 2^56 is below p, and 2^64 is not.
pub const WORD_BYTES: usize = 7;

// The bits of p itself: it is below 2^64, and not below 2^63.
pub const PRIME_BITS: u64 = 64;

// 2^64 modulo p
pub const EPSILON: u64 = 4294967295;

// A sum of words. One that passes 2^64 wraps: it lacks 2^64, which is EPSILON modulo p.
pub fn sum(a: u64, b: u64) -> u64
    requires { (a < p) × (b < p) }
    ensures { result ≡ add p a b }
{
    let wrapped = wrapping_add_u64(a, b);
    if wrapped < a {
        return wrapped + EPSILON;
    }
    lazy::residue(wrapped)
}

// A difference of words. One below 0 wraps: it has 2^64 too much, which is EPSILON modulo p.
pub fn difference(a: u64, b: u64) -> u64
    requires { (a < p) × (b < p) }
    ensures { result ≡ sub p a b }
{
    let wrapped = wrapping_sub_u64(a, b);
    if a < b { wrapped - EPSILON } else { wrapped }
}

// The product of any two numbers, as a word.
pub fn product(a: u64, b: u64) -> u64
    ensures { result ≡ mul p a b }
{
    lazy::residue(lazy::product(a, b))
}

// A power of any number, as a word. It starts at the exponent's highest one bit with the base itself, and takes each bit below
// it by a squaring, with a factor more where the bit is one.
pub fn power(base: u64, exponent: u64) -> u64
    ensures { result ≡ pow p base exponent }
{
    if exponent == 0 {
        return 1;
    }
    let highest = 63 - exponent.leading_zeros();
    let mut r = base;
    for i in (0..highest).rev() {
        r = lazy::product(r, r);
        if (exponent >> i) % 2 == 1 {
            r = lazy::product(r, base);
        }
    }
    lazy::residue(r)
}

// The inverse of a word that is not 0.
pub fn inverse(x: u64) -> u64
    requires { (0 < x) × (x < p) }
    ensures { result ≡ inverse p x }
{
    power(x, P - 2)
}
