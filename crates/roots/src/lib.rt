// Seventh roots by one addition chain: in binary the exponent is 100 ten times, 0, 110 ten times and 111. A root alone waits for each
// of its products in turn; the roots of a state are taken in step, every word's product before the next one.
#![tactic(auto)]

mod step;

ghost use Rattle.std.specs.Prelude.{◌≡◌, ◌*◌, ◌%◌, ◌^◌, ◌<◌};
ghost use Rattle.modular.specs.Arithmetic.{seventh_root};
ghost use Rattle.modular.specs.Congruence.{◌≈⟨◌⟩◌};
ghost use Rattle.modular.specs.Goldilocks.{p};

use field::lazy::{product, residue, seventh_power};
pub use step::seventh_roots;

// x squared n times, times y.
fn raised(x: u64, n: usize, y: u64) -> u64
    ensures { result ≈⟨ p ⟩ x ^ (2 ^ n) * y }
{
    let mut r = x;
    for _ in 0..n {
        r = product(r, r);
    }
    product(r, y)
}

// A number whose seventh power stands for y's word. The first names tell how often 001 stands in the exponent reached. The last factor, 111,
// does not wait for them.
pub fn lazy_seventh_root(y: u64) -> u64
    ensures { result ≈⟨ p ⟩ seventh_root p (y % p) }
{
    let two = raised(y, 3, y);
    let four = raised(two, 6, two);
    let five = raised(four, 3, y);
    let ten = raised(five, 15, five);
    let both = raised(ten, 31, ten);
    let most = raised(both, 1, ten);
    raised(most, 4, seventh_power(y))
}

// The word whose seventh power is y.
pub fn seventh_root(y: u64) -> u64
    requires { y < p }
    ensures { result ≡ seventh_root p y }
{
    residue(lazy_seventh_root(y))
}
