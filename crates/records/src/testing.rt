// What a push tests of one record, and how many windows are searched for a place that stands twice.
ghost use Rattle.std.specs.Prelude.{◌≡◌, true, ◌-◌, ◌≤◌, ◌<◌, length, take};
ghost use Rattle.modular.specs.Arithmetic.{all_words};
ghost use Rattle.fields.specs.Prime.{prime};
ghost use Rattle.repeats.specs.Maps.{map_words};
ghost use Rattle.records.specs.Tests.{pass, Going, above_of, fresh_of, keeping, one_more, test_of, is_clear, note_of, search_end};

use crate::record::Record;
use crate::tally::Tally;
use parameters::ParameterSet;
use repeats::maps::WINDOW;

// Whether the first numbers of a record are words.
fn leaf_is_words(words: [u64; 6], node_size: u64) -> bool
    requires { node_size ≤ 6 }
    ensures { result ≡ all_words prime (take node_size words) }
{
    let end = node_size as usize;
    parameters::all_words(&words[..end])
}

// One more than a place; any other place is refused, and then it does not matter.
#[tactic(auto, unfolding(crate::specs::Tests::above_of))]
fn above(place: u64, places: u64) -> u64
    ensures { result ≡ above_of places place }
{
    if place < places { place + 1 } else { place }
}

// Where there are few records: whether a place differs from those kept, and it is kept too. One that rises is above them all.
#[tactic(auto, unfolding(crate::specs::Tests::fresh_of, crate::specs::Tests::keeping))]
fn keep_place(seen: &mut [u64], few: bool, kept: usize, rises: bool, place: u64) -> bool
    requires { few ≡ true → kept < length seen.old }
    ensures { (result ≡ fresh_of few kept rises place seen.old) × (seen.new ≡ keeping few kept place seen.old) }
{
    if !few {
        return true;
    }
    let fresh = rises || !repeats::pairs::is_among(&seen[..kept], place);
    seen[kept] = place;
    fresh
}

#[tactic(auto, unfolding(crate::specs::Tests::one_more))]
fn one_more(few: bool, kept: usize) -> usize
    requires { few ≡ true → kept < 128 }
    ensures { result ≡ one_more few kept }
{
    if few { kept + 1 } else { kept }
}

// The first pass: a record's place and leaf are tested.
#[tactic(auto, using(crate::proofs::Changes::leaf_in_record), unfolding(crate::specs::Tests::test_of, crate::specs::Tests::room_of))]
pub fn test_record(set: ParameterSet, seen: &mut [u64], tally: Tally, item: Record) -> Tally
    requires { Going set 0 seen.old tally 1 }
    ensures { (result ≡ (test_of set item (pass tally seen.old)).tally)
        × (seen.new ≡ (test_of set item (pass tally seen.old)).buffer) }
{
    if tally.number != 0 {
        return tally;
    }
    let rises = tally.rising && tally.above <= item.place;
    let fresh = keep_place(seen, tally.few, tally.kept, rises, item.place);
    Tally {
        placed: tally.placed && item.place < tally.places,
        words: tally.words && leaf_is_words(item.words, set.node_size),
        distinct: tally.distinct && fresh,
        rising: rises,
        above: above(item.place, tally.places),
        kept: one_more(tally.few, tally.kept),
        ..tally
    }
}

// Whether no refusal up to 12 applies.
#[tactic(auto, unfolding(crate::specs::Tests::is_clear))]
pub fn is_clear(tally: Tally) -> bool
    ensures { result ≡ is_clear tally }
{
    tally.number == 0 && tally.placed && tally.words
}

// A pass of the search: a record's place is noted in the map of a window, until one is found twice.
#[tactic(auto, unfolding(crate::specs::Tests::note_of))]
pub fn note_record(map: &mut [u64], base: u64, tally: Tally, place: u64) -> Tally
    requires { tally.number ≡ 0 → length map.old ≡ map_words }
    ensures { (result ≡ (note_of base place (pass tally map.old)).tally)
        × (map.new ≡ (note_of base place (pass tally map.old)).buffer) }
{
    if tally.number != 0 || !tally.distinct {
        return tally;
    }
    let again = repeats::maps::note(map, base, place);
    Tally {
        distinct: !again,
        ..tally
    }
}

// How many windows of places are searched, and none where nothing is to be searched.
#[tactic(auto, unfolding(crate::specs::Tests::search_end, crate::specs::Tests::wanted))]
pub fn windows_searched(tally: Tally) -> u64
    ensures { result ≡ search_end tally - 3 }
{
    if is_clear(tally) && !tally.rising && !tally.few {
        tally.places.div_ceil(WINDOW)
    } else {
        0
    }
}
