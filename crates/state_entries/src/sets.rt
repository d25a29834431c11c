// Parameter sets: validation, and the refusal of one that is handed in.
ghost use Rattle.std.specs.Prelude.{◌≡◌};
ghost use Rattle.refusals.specs.Table.{first_refusal};
ghost use Rattle.refusals.specs.Answers.{refusal_number};
ghost use Rattle.fields.specs.Prime.{prime};
ghost use Rattle.parameters.specs.ParameterSet.{validation_of, validation, set_refusals};

use parameters::ParameterSet;
use refusals::Refusal;

// The set of these five numbers and two lists, or the first of refusals 1 to 9 that applies.
pub fn validate(
    width: u64,
    node_size: u64,
    height: u64,
    full_rounds: u64,
    partial_rounds: u64,
    diagonal: &[u64],
    constants: &[u64],
) -> Result<ParameterSet, Refusal>
    ensures { validation_of result ≡ validation prime width node_size height full_rounds partial_rounds diagonal.now constants.now }
{
    parameters::validate(
        width,
        node_size,
        height,
        full_rounds,
        partial_rounds,
        diagonal,
        constants,
    )
}

// Whether a set that is handed in is accepted, or its first refusal.
pub fn check(set: ParameterSet) -> Result<(), Refusal>
    ensures { refusal_number result ≡ first_refusal (set_refusals set) }
{
    parameters::check_set(&set)
}
