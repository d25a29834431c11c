// A reading for callers that cannot hold a part.
ghost use Rattle.std.specs.Prelude.{◌≡◌};
ghost use Rattle.reader_entries.specs.Readers.{read_words};

use parameters::ParameterSet;

// The words that a reading gives: none with a refusal.
pub fn level_words<'a>(set: ParameterSet, siblings: &'a [u64], level: u64) -> &'a [u64]
    ensures { result.now ≡ read_words set siblings.now level }
{
    reader_entries::read_level(set, siblings, level).unwrap_or(&[])
}
