// Passes over the records of a push. Every function presumes what the push has tested before.
#![tactic(auto)]

ghost use Rattle.std.specs.Prelude.{◌≡◌, ◌/◌, length, replicate};
ghost use Rattle.repeats.specs.Maps.{map_words};
ghost use Rattle.records.specs.Listed.{listed};
ghost use Rattle.records.specs.Tests.{pass, Going};
ghost use Rattle.pushes.specs.Passes.{Rising, phase_number, each_of, search_of, levels_of};

use parameters::ParameterSet;
use pushes::{Phase, levels, steps};
use records::listing::Records;
use records::tally::Tally;
use records::testing;

// Over the records, in order. The buffer is for the places that are kept, the store or a map of places. It is always inlined: with all phases
// in one loop, the compiler keeps the numbers of each on the stack.
#[inline(always)]
pub fn each<R: Records>(
    set: ParameterSet,
    buffer: &mut [u64],
    records: R,
    phase: Phase,
    tally: Tally,
) -> Tally
    requires { Going set (phase_number phase) buffer.old tally (length (R.list records)) }
    ensures { (result ≡ (each_of set (phase_number phase) (R.list records) (pass tally buffer.old)).tally)
        × (buffer.new ≡ (each_of set (phase_number phase) (R.list records) (pass tally buffer.old)).buffer) }
{
    let mut sum = tally;
    for i in 0..records.count() {
        sum = steps::step(set, buffer, phase, sum, records.record(i));
    }
    sum
}

// The search for a place that stands twice, where the tests have left it open: a pass for each window of places, with a map of its own.
pub fn search<R: Records>(set: ParameterSet, records: R, tally: Tally) -> Tally
    requires { Going set 3 (replicate map_words 0) tally (length (R.list records)) }
    ensures { result ≡ search_of set (R.list records) tally }
{
    let mut sum = tally;
    for window in 0..testing::windows_searched(tally) {
        let mut map = [0u64; 16384];
        sum = each(set, &mut map, records, Phase::Search(window), sum);
    }
    sum
}

// Level by level, the marked nodes over the records' places: of as many levels as the tally says.
pub fn rise<R: Records>(set: ParameterSet, store: &mut [u64], records: R, tally: Tally) -> Tally
    requires { Rising set store.old tally (length (R.list records)) }
    ensures { (result ≡ (levels_of set (R.list records) (pass tally store.old)).tally)
        × (store.new ≡ (levels_of set (R.list records) (pass tally store.old)).buffer) }
{
    let mut sum = tally;
    for _ in 0..levels::by_records(tally) {
        let passed = each(set, store, records, Phase::Level, sum);
        sum = levels::next(set, passed);
    }
    sum
}

// By the phase that writes leaves and marks the nodes above them, over a list of numbers with seven for each record. It has a loop of its own,
// which reads a leaf where it stands: `each` makes a record of it first.
pub fn mark_listed(set: ParameterSet, store: &mut [u64], numbers: &[u64], tally: Tally) -> Tally
    requires { Going set 1 store.old tally (length numbers.now / 7) }
    ensures { (result ≡ (each_of set 1 (listed numbers.now) (pass tally store.old)).tally)
        × (store.new ≡ (each_of set 1 (listed numbers.now) (pass tally store.old)).buffer) }
{
    if !steps::may_rise(tally) {
        return tally;
    }
    let (parts, _) = numbers.as_chunks::<7>();
    for part in parts {
        steps::mark_leaf(set, store, tally.places, part[0], &part[1..]);
    }
    tally
}
