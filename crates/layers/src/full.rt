// A full round before its M_E: t constants are added, and every word is raised to the 7th power.
ghost use Rattle.std.specs.Prelude.{◌≡◌, ◌+◌, ◌*◌, ◌<◌, ◌≤◌, take, drop};
ghost use Rattle.modular.specs.Arithmetic.{add, pow};
ghost use Rattle.modular.specs.Goldilocks.{p};
ghost use Rattle.modular.specs.Congruence.{◌≈⟨◌⟩◌};
ghost use Rattle.poseidon2.specs.Rounds.{add_constants, seventh_powers};
ghost use Rattle.poseidon2.specs.Residues.{residues};
ghost use Rattle.poseidon2.specs.Statements.{Words};
ghost use Rattle.blocks.specs.Blocks.{four, flat};

use field::lazy::{seventh_power, sum};

fn raise_word(x: u64, c: u64) -> u64
    requires { c < p }
    ensures { result ≈⟨ p ⟩ pow p (add p x c) 7 }
{
    seventh_power(sum(x, c))
}

// One block, with the constants from `at` on.
fn raise_block(x: [u64; 4], constants: &[u64; 208], at: usize) -> [u64; 4]
    requires { (at ≤ 204) × (Words p (take (at + 4) constants.now)) }
    ensures { residues p (four result) ≡ seventh_powers p (add_constants p (drop at constants.now) (four x)) }
{
    [
        raise_word(x[0], constants[at]),
        raise_word(x[1], constants[at + 1]),
        raise_word(x[2], constants[at + 2]),
        raise_word(x[3], constants[at + 3]),
    ]
}

pub fn raise<const B: usize>(s: [[u64; 4]; B], constants: &[u64; 208], at: usize) -> [[u64; 4]; B]
    requires { (at + 4 * B ≤ 208) × (Words p (take (at + 4 * B) constants.now)) }
    ensures { residues p (flat B result) ≡ seventh_powers p (add_constants p (drop at constants.now) (flat B s.entry)) }
{
    let mut raised = s;
    for i in 0..B {
        raised[i] = raise_block(s[i], constants, at + 4 * i);
    }
    raised
}
