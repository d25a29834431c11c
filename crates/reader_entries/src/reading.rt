// The opening reader: methods over the one function of `levels`, and functions by the names of Rules 8.8.
ghost use Rattle.std.specs.Prelude.{◌≡◌};
ghost use Rattle.reader_entries.specs.Readers.{part_reply, words_given, read_reply, read_words};

use crate::levels;
use parameters::ParameterSet;
use refusals::Refusal;

// A view over the sibling words of an opening.
#[derive(Clone, Copy)]
pub struct OpeningReader<'a> {
    pub siblings: &'a [u64],
}

impl<'a> OpeningReader<'a> {
    pub fn new(words: &'a [u64]) -> OpeningReader<'a>
        ensures { result.siblings ≡ words.entry }
    {
        OpeningReader { siblings: words }
    }

    // The part for one level.
    pub fn part_at(self, set: ParameterSet, level: u64) -> Result<&'a [u64], Refusal>
        ensures { (part_reply result ≡ read_reply set self.entry.siblings.now level)
            × (words_given result ≡ read_words set self.entry.siblings.now level) }
    {
        levels::part_of(set, self.siblings, level)
    }
}

// The entries of the rules' list by their names (Rules 8.8).
pub fn reader<'a>(siblings: &'a [u64]) -> OpeningReader<'a>
    ensures { result.siblings ≡ siblings.entry }
{
    OpeningReader::new(siblings)
}

// Beside the method, as Rules 8.8 list it.
pub fn part_at<'a>(
    set: ParameterSet,
    reader: OpeningReader<'a>,
    level: u64,
) -> Result<&'a [u64], Refusal>
    ensures { (part_reply result ≡ read_reply set reader.entry.siblings.now level)
        × (words_given result ≡ read_words set reader.entry.siblings.now level) }
{
    reader.part_at(set, level)
}

// The part for one level of sibling words, by a reader.
pub fn read_level<'a>(
    set: ParameterSet,
    siblings: &'a [u64],
    level: u64,
) -> Result<&'a [u64], Refusal>
    ensures { (part_reply result ≡ read_reply set siblings.now level) × (words_given result ≡ read_words set siblings.now level) }
{
    OpeningReader::new(siblings).part_at(set, level)
}
