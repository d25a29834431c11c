// The field of the prime in use, by which the other crates reach a core. Another core is chosen here and in `permutations`, and nowhere else.
#![tactic(auto)]

ghost use Rattle.std.specs.Prelude.{◌≡◌, ◌+◌, ◌*◌, ◌-◌, ◌%◌, ◌<◌};
ghost use Rattle.modular.specs.Arithmetic.{add, sub, mul, pow, inverse, seventh_root};
ghost use Rattle.modular.specs.Congruence.{◌≈⟨◌⟩◌};
ghost use Rattle.poseidon2.specs.Inverse.{seventh_roots};
ghost use Rattle.poseidon2.specs.Statements.{Words};
ghost use Rattle.blocks.specs.Blocks.{flat};
ghost use Rattle.fields.specs.Prime.{prime, word_bytes, prime_bits};

// The prime itself: a number below it is a word.
pub fn order() -> u64
    ensures { result ≡ prime }
{
    field::P
}

// How many bytes make a word.
pub fn word_bytes() -> usize
    ensures { result ≡ word_bytes }
{
    field::WORD_BYTES
}

// How many bits the prime has.
pub fn prime_bits() -> u64
    ensures { result ≡ prime_bits }
{
    field::PRIME_BITS
}

pub fn sum(a: u64, b: u64) -> u64
    requires { (a < prime) × (b < prime) }
    ensures { result ≡ add prime a b }
{
    field::sum(a, b)
}

pub fn difference(a: u64, b: u64) -> u64
    requires { (a < prime) × (b < prime) }
    ensures { result ≡ sub prime a b }
{
    field::difference(a, b)
}

// The product of any two numbers, as a word.
pub fn product(a: u64, b: u64) -> u64
    ensures { result ≡ mul prime a b }
{
    field::product(a, b)
}

// A power of any number, as a word.
pub fn power(base: u64, exponent: u64) -> u64
    ensures { result ≡ pow prime base exponent }
{
    field::power(base, exponent)
}

// The inverse of a word that is not 0.
pub fn inverse(x: u64) -> u64
    requires { (0 < x) × (x < prime) }
    ensures { result ≡ inverse prime x }
{
    field::inverse(x)
}

// The word whose seventh power is y.
pub fn seventh_root(y: u64) -> u64
    requires { y < prime }
    ensures { result ≡ seventh_root prime y }
{
    roots::seventh_root(y)
}

// The seventh roots of a state's words, by its blocks: together they take less time than one by one.
pub fn seventh_roots<const B: usize>(y: [[u64; 4]; B]) -> [[u64; 4]; B]
    requires { Words prime (flat B y) }
    ensures { flat B result ≡ seventh_roots prime (flat B y.entry) }
{
    roots::seventh_roots(y)
}

// Lazy numbers: any number of 64 bits stands for its residue. A product, and one with a summand.
pub fn lazy_product(a: u64, b: u64) -> u64
    ensures { result ≈⟨ prime ⟩ a * b }
{
    field::lazy::product(a, b)
}

// The sum of a number and a word.
pub fn lazy_sum(a: u64, b: u64) -> u64
    requires { b < prime }
    ensures { result ≈⟨ prime ⟩ a + b }
{
    field::lazy::sum(a, b)
}

pub fn lazy_product_sum(a: u64, b: u64, c: u64) -> u64
    ensures { result ≈⟨ prime ⟩ c + a * b }
{
    field::lazy::product_sum(a, b, c)
}

// A number less a word.
pub fn lazy_difference(a: u64, b: u64) -> u64
    requires { b < prime }
    ensures { result ≈⟨ prime ⟩ a + (prime - b) }
{
    field::lazy::difference(a, b)
}

// A seventh root of what a number stands for.
pub fn lazy_seventh_root(y: u64) -> u64
    ensures { result ≈⟨ prime ⟩ seventh_root prime (y % prime) }
{
    roots::lazy_seventh_root(y)
}

// The word that a lazy number stands for.
pub fn residue(x: u64) -> u64
    ensures { result ≡ x % prime }
{
    field::lazy::residue(x)
}

// Words by 2 and by 4.
pub fn half(x: u64) -> u64
    requires { x < prime }
    ensures { (result < prime) × (2 * result ≈⟨ prime ⟩ x) }
{
    field::parts::half(x)
}

pub fn quarter(x: u64) -> u64
    requires { x < prime }
    ensures { (result < prime) × (4 * result ≈⟨ prime ⟩ x) }
{
    field::parts::quarter(x)
}

// Minus the inverses of 3 and of 4.
pub fn minus_third() -> u64
    ensures { result ≡ prime - inverse prime (3 % prime) % prime }
{
    field::parts::minus_third()
}

pub fn minus_quarter() -> u64
    ensures { result ≡ prime - inverse prime (4 % prime) % prime }
{
    field::parts::minus_quarter()
}
