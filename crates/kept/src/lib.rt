// What a set keeps for the inverse permutation (Rules 2.9): made with one inversion, and tested with none.
#![tactic(auto)]

ghost use Rattle.std.specs.Prelude.{◌≡◌, ◌≢◌, ◌+◌, ◌*◌, ◌%◌, ◌<◌, ◌≤◌, eqb, length};
ghost use Rattle.modular.specs.Arithmetic.{inverse};
ghost use Rattle.modular.specs.Congruence.{◌≈⟨◌⟩◌};
ghost use Rattle.fields.specs.Prime.{prime};
ghost use Rattle.poseidon2.specs.Layers.{sum};
ghost use Rattle.poseidon2.specs.Inverse.{inverses, zeros};
ghost use Rattle.poseidon2.specs.Statements.{Words, AcceptedDiagonal};
ghost use Rattle.merkle.specs.Lists.{same};
ghost use Rattle.kept.specs.Kept.{padded, kept_of, fits};
ghost use Rattle.kept.specs.Products.{or_one, product_of, Before, ProductsOf};

// The inverses of the words of D, 0 for a 0, and that of 1 plus their sum, 0 where D has a 0.
#[derive(Clone, Copy, Debug, PartialEq, Eq)]
pub struct Kept {
    pub inverses: [u64; 12],
    pub total_inverse: u64,
}

// Products of the words of D that are not 0, as lazy numbers: before each place of those before it, of all, and of all times 1 plus the
// inverses.
#[derive(Clone, Copy, Debug, PartialEq, Eq)]
pub struct Products {
    pub before: [u64; 12],
    pub all: u64,
    pub scaled: u64,
}

// How many words are 0.
pub fn count_zeros(words: &[u64]) -> usize
    ensures { result ≡ zeros words.now }
{
    words.iter().filter(|word| **word == 0).count()
}

fn or_one(d: u64) -> u64
    ensures { result ≡ or_one d }
{
    if d == 0 { 1 } else { d }
}

pub fn products_of(diagonal: &[u64]) -> Products
    requires { (length diagonal.now ≤ 12) × Words prime diagonal.now }
    ensures { ProductsOf prime diagonal.now (length diagonal.now) result }
{
    let mut before = [0u64; 12];
    let mut all: u64 = 1;
    let mut scaled: u64 = 1;
    for (i, d) in diagonal.iter().enumerate() {
        let word = or_one(*d);
        before[i] = all;
        scaled = fields::lazy_product_sum(scaled, word, all);
        all = fields::lazy_product(all, word);
    }
    Products {
        before,
        all,
        scaled,
    }
}

// The inverse of a word, 0 for 0, from two numbers whose product with it is 1 where it is not 0.
fn inverse_from(d: u64, rest: u64, before: u64) -> u64
    requires { (d < prime) × (d ≢ 0 → rest * before * d ≈⟨ prime ⟩ 1) }
    ensures { result ≡ inverse prime d }
{
    if d == 0 {
        0
    } else {
        fields::product(rest, before)
    }
}

// The inverses of the words of D, from the last to the first: `rest` is the inverse of the product of those that are left.
fn inverses_from(diagonal: &[u64], before: &[u64; 12], rest: u64) -> [u64; 12]
    requires { (length diagonal.now ≤ 12) × Words prime diagonal.now × Before prime diagonal.now (length diagonal.now) before.now × (rest * product_of diagonal.now ≈⟨ prime ⟩ 1) }
    ensures { result ≡ padded 12 (inverses prime diagonal.now) }
{
    let mut inverses = [0u64; 12];
    let mut left = rest;
    for i in (0..diagonal.len()).rev() {
        inverses[i] = inverse_from(diagonal[i], left, before[i]);
        left = fields::lazy_product(left, or_one(diagonal[i]));
    }
    inverses
}

// Where a word is 0: the inverse of the others' product is all that is wanted.
fn kept_with_zero(diagonal: &[u64]) -> Kept
    requires { (length diagonal.now ≤ 12) × Words prime diagonal.now × (zeros diagonal.now ≢ 0) }
    ensures { result ≡ kept_of prime diagonal.now }
{
    let products = products_of(diagonal);
    let before = products.before;
    let rest = fields::inverse(fields::residue(products.all));
    Kept {
        inverses: inverses_from(diagonal, &before, rest),
        total_inverse: 0,
    }
}

// Where none is: if a is the product of all, and b that times 1 plus the inverses, then with x = 1 / (a × b) the inverse of a is x × b, and
// that of 1 plus the inverses x × a × a.
fn kept_without_zero(diagonal: &[u64]) -> Kept
    requires { (length diagonal.now ≤ 12) × Words prime diagonal.now × (zeros diagonal.now ≡ 0) × (0 < (1 + sum (inverses prime diagonal.now)) % prime) }
    ensures { result ≡ kept_of prime diagonal.now }
{
    let products = products_of(diagonal);
    let before = products.before;
    let x = fields::inverse(fields::product(products.all, products.scaled));
    let rest = fields::product(x, products.scaled);
    let total_inverse = fields::product(fields::product(x, products.all), products.all);
    Kept {
        inverses: inverses_from(diagonal, &before, rest),
        total_inverse,
    }
}

// What is kept for a D that is accepted.
pub fn keep(diagonal: &[u64]) -> Kept
    requires { (length diagonal.now ≤ 12) × AcceptedDiagonal prime (length diagonal.now) diagonal.now }
    ensures { result ≡ kept_of prime diagonal.now }
{
    if count_zeros(diagonal) == 0 {
        kept_without_zero(diagonal)
    } else {
        kept_with_zero(diagonal)
    }
}

// Whether a number is the inverse of a word, and 0 for 0: by one product.
fn is_inverse(d: u64, e: u64) -> bool
    requires { d < prime }
    ensures { result ≡ eqb e (inverse prime d) }
{
    if d == 0 {
        e == 0
    } else {
        e < fields::order() && fields::product(d, e) == 1
    }
}

// Whether these are the inverses of the words of D, one for each.
fn are_inverses(diagonal: &[u64], list: &[u64]) -> bool
    requires { Words prime diagonal.now × (length list.now ≡ length diagonal.now) }
    ensures { result ≡ same list.now (inverses prime diagonal.now) }
{
    diagonal.iter().zip(list).all(|(d, e)| is_inverse(*d, *e))
}

// A word and some words, added up.
fn sum_from(start: u64, words: &[u64]) -> u64
    requires { (start < prime) × Words prime words.now }
    ensures { result ≡ (start + sum words.now) % prime }
{
    let mut total = start;
    for word in words {
        total = fields::sum(total, *word);
    }
    total
}

// Whether the values are those that are kept for a D, of which so many words are 0: a product for each, and no inversion.
pub fn fits(zero_count: usize, diagonal: &[u64], inverses: &[u64], total_inverse: u64) -> bool
    requires { (zero_count ≡ zeros diagonal.now) × Words prime diagonal.now × (length inverses.now ≡ length diagonal.now) }
    ensures { result ≡ fits prime diagonal.now inverses.now total_inverse }
{
    are_inverses(diagonal, inverses)
        && if zero_count == 0 {
            is_inverse(sum_from(1, inverses), total_inverse)
        } else {
            total_inverse == 0
        }
}
