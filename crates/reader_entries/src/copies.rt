// A level's part of sibling words copied to a buffer, for callers that cannot hold a view.
ghost use Rattle.std.specs.Prelude.{◌≡◌};
ghost use Rattle.refusals.specs.Table.{first_refusal};
ghost use Rattle.refusals.specs.Answers.{refusal_number};
ghost use Rattle.state_entries.specs.Permutation.{outcome_reply};
ghost use Rattle.reader_entries.specs.Copies.{copy_refusals, copy_reply, copied};

use parameters::ParameterSet;
use refusals::Refusal;
use trees::{nodes, sets};

// Whether a set, siblings, a level and a buffer to be written are accepted, or their first refusal.
fn check_copy(
    set: ParameterSet,
    siblings: &[u64],
    level: u64,
    buffer: &[u64],
) -> Result<(), Refusal>
    ensures { refusal_number result ≡ first_refusal (copy_refusals set siblings.now level buffer.now) }
{
    state_entries::check(set)?;
    if siblings.len() != sets::opening_words(set) {
        return Err(Refusal::BadLength);
    }
    if buffer.len() != sets::part_words(set) {
        return Err(Refusal::BadLength);
    }
    if set.height <= level {
        return Err(Refusal::BadPlace);
    }
    let words = sets::level_words(set, siblings, level);
    if !parameters::all_words(words) {
        return Err(Refusal::NotAWord);
    }
    Ok(())
}

// A level's part, copied to a buffer.
pub fn copy_level(
    set: ParameterSet,
    siblings: &[u64],
    level: u64,
    buffer: &mut [u64],
) -> Result<(), Refusal>
    ensures { (outcome_reply result ≡ copy_reply set siblings.now level buffer.old)
        × (buffer.new ≡ copied set siblings.now level buffer.old) }
{
    check_copy(set, siblings, level, buffer)?;
    let words = sets::level_words(set, siblings, level);
    nodes::copy_words(words, 0, words.len(), buffer, 0);
    Ok(())
}
