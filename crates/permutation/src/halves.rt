// The halves of M_E by themselves (Rules 3.10), from the numbers of a list to those of a state. The permutation does not come here: this is for
// whoever measures one half.
ghost use Rattle.std.specs.Prelude.{◌≡◌, ◌*◌, ◌≤◌, length};
ghost use Rattle.modular.specs.Goldilocks.{p};
ghost use Rattle.poseidon2.specs.Layers.{sums, m4_blocks};
ghost use Rattle.poseidon2.specs.Statements.{Width, Words};

use crate::rounds::load;
use crate::write_state;
use layers::external;

fn sums_of<const B: usize>(list: &[u64], state: &mut [u64])
    requires { (1 ≤ B) × (B ≤ 3) × (length list.now ≡ 4 * B) × (Words 4294967296 list.now) × (length state.old ≡ 4 * B) }
    ensures { state.new ≡ sums p list.now }
{
    let s = load::<B>(list, 0);
    write_state(external::sums(s), state);
}

fn m4_blocks_of<const B: usize>(list: &[u64], state: &mut [u64])
    requires { (length list.now ≡ 4 * B) × (Words 17179869181 list.now) × (length state.old ≡ 4 * B) }
    ensures { state.new ≡ m4_blocks p list.now }
{
    let s = load::<B>(list, 0);
    write_state(external::m4_blocks(s), state);
}

// The sums, of numbers below 2^32. A block alone stays.
pub fn sums(width: usize, list: &[u64], state: &mut [u64])
    requires { (Width width) × (length list.now ≡ width) × (Words 4294967296 list.now) × (length state.old ≡ width) }
    ensures { state.new ≡ sums p list.now }
{
    match width {
        4 => sums_of::<1>(list, state),
        8 => sums_of::<2>(list, state),
        _ => sums_of::<3>(list, state),
    }
}

// M4 in each block, of numbers that are at most four times as large.
pub fn m4_blocks(width: usize, list: &[u64], state: &mut [u64])
    requires { (Width width) × (length list.now ≡ width) × (Words 17179869181 list.now) × (length state.old ≡ width) }
    ensures { state.new ≡ m4_blocks p list.now }
{
    match width {
        4 => m4_blocks_of::<1>(list, state),
        8 => m4_blocks_of::<2>(list, state),
        _ => m4_blocks_of::<3>(list, state),
    }
}
