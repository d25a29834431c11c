// Lazy numbers: any number of 64 bits stands for its residue modulo p. Contracts say what a result is congruent to.
ghost use Rattle.std.specs.Prelude.{◌≡◌, ◌+◌, ◌-◌, ◌*◌, ◌/◌, ◌%◌, ◌^◌, ◌<◌, ◌≤◌};
ghost use Rattle.modular.specs.Congruence.{◌≈⟨◌⟩◌};
ghost use Rattle.modular.specs.Goldilocks.{p};

use crate::{EPSILON, P};
use std::num::{wrapping_add_u64, wrapping_sub_u64};

// 2^32: a number is a high and a low half below it
const HALF: u64 = 4294967296;

// The word that a number stands for.
pub fn residue(x: u64) -> u64
    ensures { result ≡ x % p }
{
    if P <= x { x - P } else { x }
}

// The product of two halves.
fn half_product(a: u64, b: u64) -> u64
    requires { (a ≤ 4294967295) × (b ≤ 4294967295) }
    ensures { (result ≡ a * b) × (result ≤ 18446744065119617025) }
{
    a * b
}

// The high word of a product of 128 bits. This function and the next, kept apart, compile to one `mul`.
fn product_high(a: u64, b: u64) -> u64
    ensures { result ≡ a * b / 18446744073709551616 }
{
    let a0 = a % HALF;
    let a1 = a / HALF;
    let b0 = b % HALF;
    let b1 = b / HALF;
    let low = half_product(a0, b0);
    let middle = half_product(a1, b0) + low / HALF;
    let cross = middle % HALF + half_product(a0, b1);
    half_product(a1, b1) + middle / HALF + cross / HALF
}

// The low word.
fn product_low(a: u64, b: u64) -> u64
    ensures { result ≡ a * b % 18446744073709551616 }
{
    let a0 = a % HALF;
    let a1 = a / HALF;
    let b0 = b % HALF;
    let b1 = b / HALF;
    let cross = wrapping_add_u64(half_product(a1, b0), half_product(a0, b1));
    wrapping_add_u64((cross % HALF) * HALF, half_product(a0, b0))
}

// A number of 128 bits, by 2^64 = EPSILON and 2^96 = -1. Where a step wraps, 2^64 too much or too little is corrected by EPSILON.
fn reduce(high: u64, low: u64) -> u64
    ensures { result ≈⟨ p ⟩ high * 18446744073709551616 + low }
{
    let top = high / HALF;
    let middle = high % HALF * EPSILON;
    let wrapped = wrapping_sub_u64(low, top);
    let rest = if low < top {
        wrapping_sub_u64(wrapped, EPSILON)
    } else {
        wrapped
    };
    let total = wrapping_add_u64(rest, middle);
    if total < middle {
        wrapping_add_u64(total, EPSILON)
    } else {
        total
    }
}

// A product.
pub fn product(a: u64, b: u64) -> u64
    ensures { result ≈⟨ p ⟩ a * b }
{
    reduce(product_high(a, b), product_low(a, b))
}

// A square, reduced as a product is but in another order, the product by EPSILON last: where squares wait for squares it takes less time.
pub fn square(x: u64) -> u64
    ensures { result ≈⟨ p ⟩ x * x }
{
    let high = product_high(x, x);
    let rest = difference(product_low(x, x), high / HALF);
    sum(rest, high % HALF * EPSILON)
}

// A product and a number more, with one reduction.
pub fn product_sum(a: u64, b: u64, c: u64) -> u64
    ensures { result ≈⟨ p ⟩ c + a * b }
{
    let high = product_high(a, b);
    let low = product_low(a, b);
    let total = wrapping_add_u64(low, c);
    let top = if total < c {
        wrapping_add_u64(high, 1)
    } else {
        high
    };
    reduce(top, total)
}

// The sum of a number and a word. Where it wraps it lacks 2^64.
pub fn sum(a: u64, b: u64) -> u64
    requires { b < p }
    ensures { result ≈⟨ p ⟩ a + b }
{
    let total = wrapping_add_u64(a, b);
    if total < b {
        wrapping_add_u64(total, EPSILON)
    } else {
        total
    }
}

// A number less a word. Where it wraps it has 2^64 too much, which is EPSILON modulo p.
pub fn difference(a: u64, b: u64) -> u64
    requires { b < p }
    ensures { result ≈⟨ p ⟩ a + (p - b) }
{
    let wrapped = wrapping_sub_u64(a, b);
    if a < b {
        wrapping_sub_u64(wrapped, EPSILON)
    } else {
        wrapped
    }
}

// The seventh power, by products of which two do not wait for one another.
pub fn seventh_power(x: u64) -> u64
    ensures { result ≈⟨ p ⟩ x ^ 7 }
{
    let square = product(x, x);
    let fourth = product(square, square);
    let cube = product(square, x);
    product(cube, fourth)
}

// high * 2^32 + low, of sums of halves.
pub fn join(high: u64, low: u64) -> u64
    requires { (high ≤ 1099511627775) × (low ≤ 1099511627775) }
    ensures { result ≈⟨ p ⟩ high * 4294967296 + low }
{
    let small = low + high / HALF * EPSILON;
    let total = wrapping_add_u64(high % HALF * HALF, small);
    if total < small {
        wrapping_add_u64(total, EPSILON)
    } else {
        total
    }
}

// high * 2^64 + low, of a sum of a few numbers.
pub fn fold(high: u64, low: u64) -> u64
    requires { high ≤ 1073741823 }
    ensures { result ≈⟨ p ⟩ high * 18446744073709551616 + low }
{
    let small = high * EPSILON;
    let total = wrapping_add_u64(low, small);
    if total < small {
        wrapping_add_u64(total, EPSILON)
    } else {
        total
    }
}
