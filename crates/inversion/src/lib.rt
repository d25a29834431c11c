// The inverse permutation on words, the permutation's last step undone first.
#![tactic(auto)]

mod external;
mod full;
mod internal;

ghost use Rattle.std.specs.Prelude.{◌≡◌, ◌+◌, ◌*◌, ◌≤◌, length, take, drop};
ghost use Rattle.fields.specs.Prime.{prime};
ghost use Rattle.poseidon2.specs.Inverse.{zero_place, unfull_rounds};
ghost use Rattle.poseidon2.specs.Statements.{Width, Words};
ghost use Rattle.inversion.specs.Kept.{WordsBelow, UnpermuteInput, unpartial_rounds_by, unpermute_by};

use external::unexternal;
use fields::{lazy_difference, lazy_seventh_root};
use full::unround;
use internal::{settle, uninternal, zero_place};

// Full rounds undone: the first of them has its constants from place `at` on.
fn unfull_rounds(rounds: usize, constants: &[u64; 208], at: usize, state: &mut [u64])
    requires { Width (length state.old) × Words prime state.old × (at + length state.old * rounds ≤ 208) × WordsBelow prime (at + length state.old * rounds) constants.now }
    ensures { state.new ≡ unfull_rounds prime (length state.old) rounds (drop at constants.now) state.old }
{
    for i in (0..rounds).rev() {
        unround(constants, at + state.len() * i, state);
    }
}

// Partial rounds undone: the first of them has the constant at place `at`. `zero` is the place of the first inverse that is 0, or the
// state's length.
fn unpartial_rounds(
    rounds: usize,
    zero: usize,
    inverses: &[u64; 12],
    total_inverse: u64,
    constants: &[u64; 208],
    at: usize,
    state: &mut [u64],
)
    requires { Width (length state.old) × Words prime state.old × (at + rounds ≤ 208) × WordsBelow prime (at + rounds) constants.now × (zero ≡ zero_place (take (length state.old) inverses.now)) × (length inverses.now ≡ 12) }
    ensures { state.new ≡ unpartial_rounds_by prime (take (length state.old) inverses.now) total_inverse rounds (drop at constants.now) state.old }
{
    for i in (0..rounds).rev() {
        uninternal(zero, inverses, total_inverse, state);
        let root = lazy_seventh_root(state[0]);
        state[0] = lazy_difference(root, constants[at + i]);
    }
    settle(state);
}

// The inverse permutation, handed the inverses of D, 0 for a 0, and the inverse of 1 plus their sum.
pub fn unpermute(
    width: usize,
    half: usize,
    partial_rounds: usize,
    inverses: &[u64; 12],
    total_inverse: u64,
    constants: &[u64; 208],
    state: &mut [u64],
)
    requires { UnpermuteInput prime width half partial_rounds constants.now state.old }
    ensures { state.new ≡ unpermute_by prime width half partial_rounds inverses.now total_inverse constants.now state.old }
{
    let middle = width * half;
    let zero = zero_place(width, inverses);
    unfull_rounds(half, constants, middle + partial_rounds, state);
    unpartial_rounds(
        partial_rounds,
        zero,
        inverses,
        total_inverse,
        constants,
        middle,
        state,
    );
    unfull_rounds(half, constants, 0, state);
    unexternal(state);
}
