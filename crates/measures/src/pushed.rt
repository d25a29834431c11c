// The passes of a push over its records, as `push_listed` makes them, without the test of the store and without writing.
ghost use Rattle.std.specs.Prelude.{◌≡◌, ◌/◌, length};
ghost use Rattle.set_arrays.specs.Arrays.{set_of};
ghost use Rattle.records.specs.Listed.{listed};
ghost use Rattle.measures.specs.Pushed.{beginning, found, first_pass, searching, Pushable};

use pushes::Phase;
use records::listing::Numbers;
use records::tally::Tally;

fn beginning(places: u64, rising: bool, few: bool) -> Tally
    ensures { result ≡ beginning places rising few }
{
    Tally {
        places,
        rising,
        few,
        ..Tally::empty()
    }
}

#[tactic(auto, unfolding(crate::specs::Pushed::found))]
fn found(tally: Tally) -> u64
    ensures { result ≡ found tally }
{
    if tally.placed && tally.words && tally.distinct {
        1
    } else {
        0
    }
}

// The first pass over the records, with its part of the test for a place that stands twice, where `repeats` is 1, or without it.
#[unsafe(no_mangle)]
pub extern "C" fn measured_first_pass(
    set: &[u64; 238],
    numbers: &[u64],
    places: u64,
    repeats: u64,
) -> u64
    requires { Pushable (set_of set.now) places (length numbers.now / 7) }
    ensures { result ≡ first_pass (set_of set.now) places (length numbers.now / 7) repeats (listed numbers.now) }
{
    let handed = set_arrays::read(set);
    let few = repeats == 1 && numbers.len() / 7 <= 128;
    let mut seen = [0u64; 128];
    let begun = beginning(places, repeats == 1, few);
    found(passes::each(handed, &mut seen, Numbers(numbers), Phase::Test, begun))
}

// The search for a place that stands twice.
#[unsafe(no_mangle)]
pub extern "C" fn measured_search(set: &[u64; 238], numbers: &[u64], places: u64) -> u64
    requires { Pushable (set_of set.now) places (length numbers.now / 7) }
    ensures { result ≡ searching (set_of set.now) places (listed numbers.now) }
{
    let handed = set_arrays::read(set);
    let begun = beginning(places, false, false);
    found(passes::search(handed, Numbers(numbers), begun))
}
