// What undoes M4 and the sum of blocks (Rules 7.2): words by 2 and by 4, and minus the inverses of 3 and of 4.
ghost use Rattle.std.specs.Prelude.{◌≡◌, ◌-◌, ◌*◌, ◌%◌, ◌<◌};
ghost use Rattle.modular.specs.Arithmetic.{inverse};
ghost use Rattle.modular.specs.Congruence.{◌≈⟨◌⟩◌};
ghost use Rattle.modular.specs.Goldilocks.{p};

// A word by 2: with p more where it is odd.
pub fn half(x: u64) -> u64
    requires { x < p }
    ensures { (result < p) × (2 * result ≈⟨ p ⟩ x) }
{
    x / 2 + x % 2 * 9223372034707292161
}

// A word by 4: with so many p more that it can be divided, as p is one above a multiple of 4.
pub fn quarter(x: u64) -> u64
    requires { x < p }
    ensures { (result < p) × (4 * result ≈⟨ p ⟩ x) }
{
    let wanting = (4 - x % 4) % 4;
    (x + wanting) / 4 + wanting * 4611686017353646080
}

pub fn minus_third() -> u64
    ensures { result ≡ p - inverse p (3 % p) % p }
{
    6148914689804861440
}

pub fn minus_quarter() -> u64
    ensures { result ≡ p - inverse p (4 % p) % p }
{
    4611686017353646080
}
