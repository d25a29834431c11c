// Parameter sets for C: each is an array of 238 numbers, which validation and the exchanges write.
ghost use Rattle.std.specs.Prelude.{◌≡◌};
ghost use Rattle.fields.specs.Prime.{prime};
ghost use Rattle.parameters.specs.ParameterSet.{validation, validation_of};
ghost use Rattle.set_entries.specs.Exchange.{diagonal_exchanged, height_exchanged};
ghost use Rattle.set_arrays.specs.Arrays.{set_of};
ghost use Rattle.opening_tree_c.specs.Exports.{array_after};

use opening_tree::{ParameterSet, Refusal};

// The set of an answer to the array, if it is one; the number of the answer.
fn give(answer: Result<ParameterSet, Refusal>, set: &mut [u64; 238]) -> u8
    ensures { (result ≡ (validation_of answer).number) × (set.new ≡ array_after (validation_of answer) set.old) }
{
    match answer {
        Ok(accepted) => {
            set_arrays::write(accepted, set);
            0
        }
        Err(refusal) => refusal.number(),
    }
}

// The set of these numbers and lists, to the array.
#[unsafe(no_mangle)]
pub extern "C" fn opening_tree_validate(
    width: u64,
    node_size: u64,
    height: u64,
    full_rounds: u64,
    partial_rounds: u64,
    diagonal: &[u64],
    constants: &[u64],
    set: &mut [u64; 238],
) -> u8
    ensures { (result ≡ (validation prime width node_size height full_rounds partial_rounds diagonal.now constants.now).number)
        × (set.new ≡ array_after (validation prime width node_size height full_rounds partial_rounds diagonal.now constants.now) set.old) }
{
    let answer = opening_tree::validate(
        width,
        node_size,
        height,
        full_rounds,
        partial_rounds,
        diagonal,
        constants,
    );
    give(answer, set)
}

// The set with another D, to another array.
#[unsafe(no_mangle)]
pub extern "C" fn opening_tree_exchange_diagonal(
    set: &[u64; 238],
    diagonal: &[u64],
    exchanged: &mut [u64; 238],
) -> u8
    ensures { (result ≡ (diagonal_exchanged (set_of set.now) diagonal.now).number)
        × (exchanged.new ≡ array_after (diagonal_exchanged (set_of set.now) diagonal.now) exchanged.old) }
{
    let handed = set_arrays::read(set);
    let answer = opening_tree::exchange_diagonal(handed, diagonal);
    give(answer, exchanged)
}

// The set with another height, to another array.
#[unsafe(no_mangle)]
pub extern "C" fn opening_tree_exchange_height(
    set: &[u64; 238],
    height: u64,
    exchanged: &mut [u64; 238],
) -> u8
    ensures { (result ≡ (height_exchanged (set_of set.now) height).number)
        × (exchanged.new ≡ array_after (height_exchanged (set_of set.now) height) exchanged.old) }
{
    let handed = set_arrays::read(set);
    let answer = opening_tree::exchange_height(handed, height);
    give(answer, exchanged)
}
