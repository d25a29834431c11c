// The entries that exchange a part of a set: D, or the height (Rules 2.11).
#![tactic(auto)]

ghost use Rattle.std.specs.Prelude.{◌≡◌};
ghost use Rattle.parameters.specs.ParameterSet.{validation_of};
ghost use Rattle.set_entries.specs.Exchange.{diagonal_exchanged, height_exchanged};

use parameters::ParameterSet;
use refusals::Refusal;

// The set with another D in the place of its own, or the first refusal, of the set and then of the outcome.
pub fn exchange_diagonal(set: ParameterSet, diagonal: &[u64]) -> Result<ParameterSet, Refusal>
    ensures { validation_of result ≡ diagonal_exchanged set diagonal.now }
{
    state_entries::check(set)?;
    parameters::with_diagonal(set, diagonal)
}

// The set with another height in the place of its own, or the first refusal, of the set and then of the outcome.
pub fn exchange_height(set: ParameterSet, height: u64) -> Result<ParameterSet, Refusal>
    ensures { validation_of result ≡ height_exchanged set height }
{
    state_entries::check(set)?;
    parameters::with_height(set, height)
}
