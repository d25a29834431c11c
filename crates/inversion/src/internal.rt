// M_I undone on lazy numbers, from the inverses of D, 0 for a 0, and the inverse of 1 plus their sum. Word 0 is wanted first, for its root, and
// made last: so sums go from the last word to it. The weighted sum takes four numbers a turn.
ghost use Rattle.std.specs.Prelude.{◌≡◌, ◌+◌, ◌%◌, ◌<◌, ◌≤◌, length, take, drop, set};
ghost use Rattle.modular.specs.Arithmetic.{mul, sub};
ghost use Rattle.modular.specs.Congruence.{◌≈⟨◌⟩◌};
ghost use Rattle.fields.specs.Prime.{prime};
ghost use Rattle.poseidon2.specs.Layers.{sum, dot};
ghost use Rattle.poseidon2.specs.Inverse.{zero_place, multiples_less};
ghost use Rattle.poseidon2.specs.Residues.{residues};
ghost use Rattle.inversion.specs.Kept.{old_sum, uninternal_by};

use fields::{
    difference, lazy_difference, lazy_product, lazy_product_sum, lazy_sum, product, residue,
};

// The place of the first 0 among the first numbers, or their count.
pub fn zero_place(count: usize, numbers: &[u64]) -> usize
    requires { count ≤ length numbers.now }
    ensures { result ≡ zero_place (take count numbers.now) }
{
    numbers[..count]
        .iter()
        .position(|number| *number == 0)
        .unwrap_or(count)
}

// The four numbers from place `at` on, each times its inverse, added up: a number that stands for the sum.
fn weighted_block(inverses: &[u64; 12], at: usize, state: &[u64]) -> u64
    requires { (at + 4 ≤ 12) × (at + 4 ≤ length state.now) }
    ensures { result ≈⟨ prime ⟩ dot (take 4 (drop at inverses.now)) (drop at (residues prime state.now)) }
{
    let fourth = lazy_product(inverses[at + 3], state[at + 3]);
    let third = lazy_product_sum(inverses[at + 2], state[at + 2], fourth);
    let second = lazy_product_sum(inverses[at + 1], state[at + 1], third);
    lazy_product_sum(inverses[at], state[at], second)
}

// All of them.
fn weighted_sum(inverses: &[u64; 12], state: &[u64]) -> u64
    requires { (length state.now ≤ 12) × (length state.now % 4 ≡ 0) }
    ensures { result ≈⟨ prime ⟩ dot (take (length state.now) inverses.now) (residues prime state.now) }
{
    let mut total = 0;
    for i in (0..state.len() / 4).rev() {
        total = lazy_sum(weighted_block(inverses, 4 * i, state), residue(total));
    }
    total
}

// An inverse times what `s` leaves of a number.
fn multiple_less(s: u64, inverse: u64, x: u64) -> u64
    requires { s < prime }
    ensures { result % prime ≡ mul prime inverse (sub prime (x % prime) s) }
{
    lazy_product(inverse, lazy_difference(x, s))
}

// Each inverse times what `s` leaves of its number.
fn multiples_less(s: u64, inverses: &[u64; 12], state: &mut [u64])
    requires { (s < prime) × (length state.old ≤ 12) }
    ensures { residues prime state.new ≡ multiples_less prime s inverses.now (residues prime state.old) }
{
    for i in 0..state.len() {
        state[i] = multiple_less(s, inverses[i], state[i]);
    }
}

// The word that the sum of the numbers stands for.
fn sum_of(state: &[u64]) -> u64
    requires { length state.now ≤ 12 }
    ensures { result ≡ sum (residues prime state.now) % prime }
{
    let mut total = 0;
    for i in (0..state.len()).rev() {
        total = lazy_sum(total, residue(state[i]));
    }
    residue(total)
}

// Each number's word in its place.
pub fn settle(state: &mut [u64])
    ensures { state.new ≡ residues prime state.old }
{
    for x in state.iter_mut() {
        *x = residue(*x);
    }
}

// The sum of the words before M_I: what stands at the place of the inverse that is 0, or else the weighted sum.
fn old_sum(zero: usize, inverses: &[u64; 12], total_inverse: u64, state: &[u64]) -> u64
    requires { (length state.now ≤ 12) × (length state.now % 4 ≡ 0) }
    ensures { result ≡ old_sum prime zero (take (length state.now) inverses.now) total_inverse (residues prime state.now) }
{
    if zero < state.len() {
        return residue(state[zero]);
    }
    product(weighted_sum(inverses, state), total_inverse)
}

// At a place, if it is one of the state's: what all the numbers leave of `s`.
fn put_rest(s: u64, zero: usize, state: &mut [u64])
    requires { (s < prime) × (length state.old ≤ 12) }
    ensures { residues prime state.new ≡ set (residues prime state.old) zero (sub prime s (sum (residues prime state.old))) }
{
    if state.len() <= zero {
        return;
    }
    let others = sum_of(state);
    state[zero] = difference(s, others);
}

// M_I undone. `zero` is the place of the first inverse that is 0, or the state's length.
pub fn uninternal(zero: usize, inverses: &[u64; 12], total_inverse: u64, state: &mut [u64])
    requires { (zero ≡ zero_place (take (length state.old) inverses.now)) × (length state.old ≤ 12) × (length state.old % 4 ≡ 0) × (length inverses.now ≡ 12) }
    ensures { residues prime state.new ≡ uninternal_by prime (take (length state.old) inverses.now) total_inverse (residues prime state.old) }
{
    let s = old_sum(zero, inverses, total_inverse, state);
    multiples_less(s, inverses, state);
    put_rest(s, zero, state);
}
