// What a push has found and made so far.
ghost use Rattle.std.specs.Prelude.{◌≡◌};
ghost use Rattle.records.specs.Tests.{empty_tally};

#[derive(Clone, Copy)]
pub struct Tally {
    // the number of the first of refusals 1 to 10 that applies, or 0; with 0, `places` is k^h
    pub number: u8,
    pub places: u64,
    // what refusals 11 and 12 test: every place so far is below k^h, and the store and every leaf so far are words
    pub placed: bool,
    pub words: bool,
    // what refusal 17 tests: no place was found twice
    pub distinct: bool,
    // the places so far rise, and these are above them
    pub rising: bool,
    pub above: u64,
    // there are so few records that their places are kept and compared; how many are kept so far
    pub few: bool,
    pub kept: usize,
    // how many levels are made by going over the records; of the next one the rows before its own, and the places under each of its nodes
    pub levels: u64,
    pub before: usize,
    pub under: usize,
    // the compressions made
    pub made: u64,
}

impl Tally {
    // Before the first record: nothing is refused or found, and there are no places yet.
    pub fn empty() -> Tally
        ensures { result ≡ empty_tally }
    {
        Tally {
            number: 0,
            places: 0,
            placed: true,
            words: true,
            distinct: true,
            rising: true,
            above: 0,
            few: false,
            kept: 0,
            levels: 0,
            before: 0,
            under: 0,
            made: 0,
        }
    }
}
