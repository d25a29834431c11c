// A level's part of sibling words, where nothing is refused.
ghost use Rattle.std.specs.Prelude.{◌≡◌};
ghost use Rattle.reader_entries.specs.Readers.{part_reply, words_given, read_reply, read_words};

use parameters::ParameterSet;
use refusals::Refusal;
use trees::sets;

// The part for one level of these siblings, or the first refusal of a set, siblings and a level. Only that part is tested.
pub fn part_of<'a>(set: ParameterSet, siblings: &'a [u64], level: u64) -> Result<&'a [u64], Refusal>
    ensures { (part_reply result ≡ read_reply set siblings.now level) × (words_given result ≡ read_words set siblings.now level) }
{
    state_entries::check(set)?;
    if siblings.len() != sets::opening_words(set) {
        return Err(Refusal::BadLength);
    }
    if set.height <= level {
        return Err(Refusal::BadPlace);
    }
    let words = sets::level_words(set, siblings, level);
    if !parameters::all_words(words) {
        return Err(Refusal::NotAWord);
    }
    Ok(words)
}
