// Refusals: why an entry turns its work back, and what it replies then. The definitions stand in specs/.
#![tactic(auto)]

ghost use Rattle.std.specs.Prelude.{◌≡◌};
ghost use Rattle.refusals.specs.Answers.{number_of};

use std::error::Error;
use std::fmt;

// A row of the table of refusals (Rules 8.1), under its number.
#[derive(Clone, Copy, Debug, PartialEq, Eq, Hash)]
pub enum Refusal {
    BadWidth = 1,
    BadNodeSize = 2,
    BadFullRounds = 3,
    BadPartialRounds = 4,
    BadHeight = 5,
    BadListLength = 6,
    BadListWord = 7,
    ZeroInDiagonal = 8,
    SingularDiagonal = 9,
    BadLength = 10,
    BadPlace = 11,
    NotAWord = 12,
    NoInverse = 13,
    NotAccepted = 14,
    EqualLeaves = 15,
    FileTooLong = 16,
    RepeatedPlace = 17,
    BadKeptValues = 18,
}

impl Refusal {
    // The number that C and the root program give for it.
    pub fn number(self) -> u8
        ensures { result ≡ number_of self }
    {
        self as u8
    }
}

impl fmt::Display for Refusal {
    fn fmt<W: fmt::Write>(&self, f: &mut fmt::Formatter<W>) -> fmt::Result {
        f.write_str(match self {
            Refusal::BadWidth => "the width is not 4, 8 or 12",
            Refusal::BadNodeSize =>
                "the node size does not divide the width, or leaves an arity below 2",
            Refusal::BadFullRounds => "the full rounds are odd, 0 or above 12",
            Refusal::BadPartialRounds => "the partial rounds are above 64",
            Refusal::BadHeight => "the height is above 32, or there are more than 2^32 leaves",
            Refusal::BadListLength => "the diagonal or the constants are of another length",
            Refusal::BadListWord => "a number of the diagonal or the constants is not a word",
            Refusal::ZeroInDiagonal => "two or more words of the diagonal are 0",
            Refusal::SingularDiagonal => "1 plus the inverses of the diagonal is 0",
            Refusal::BadLength => "a list is not of its exact length",
            Refusal::BadPlace => "there is no such place or level",
            Refusal::NotAWord => "a number is not a word",
            Refusal::NoInverse => "0 has no inverse",
            Refusal::NotAccepted => "an opening is not accepted",
            Refusal::EqualLeaves => "the leaves are equal",
            Refusal::FileTooLong => "the file is longer than 4294967295 bytes",
            Refusal::RepeatedPlace => "two records have the same place",
            Refusal::BadKeptValues => "the kept values are not those of the diagonal",
        })
    }
}

impl Error for Refusal {}
