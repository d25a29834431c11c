// What a push does with one record.
ghost use Rattle.std.specs.Prelude.{◌≡◌, ◌+◌, ◌/◌, ◌<◌, ◌^◌, length, take};
ghost use Rattle.refusals.specs.Table.{first_refusal};
ghost use Rattle.parameters.specs.ParameterSet.{set_refusals};
ghost use Rattle.merkle.specs.Marks.{rewrite_marked};
ghost use Rattle.trees.specs.Shapes.{counted};
ghost use Rattle.trees.specs.SetTrees.{tree_of_set, dimensions_of, leaf_count, store_words};
ghost use Rattle.marks.specs.Marks.{mark, Rank};
ghost use Rattle.records.specs.Tests.{pass, Going};
ghost use Rattle.pushes.specs.Passes.{may_write, may_rise, mark_leaf, mark_of, rise_of, phase_number, step_of};

use crate::phase::Phase;
use marks::{marking, rewriting};
use parameters::ParameterSet;
use records::Record;
use records::tally::Tally;
use records::testing::{is_clear, note_record, test_record};
use repeats::maps::WINDOW;
use trees::sets;

// Whether nothing is refused, and the place is there.
#[tactic(auto, unfolding(crate::specs::Passes::may_write, crate::specs::Passes::may_rise))]
fn may_write(tally: Tally, place: u64) -> bool
    ensures { result ≡ may_write tally place }
{
    may_rise(tally) && place < tally.places
}

// Whether nothing is refused.
#[tactic(auto, unfolding(crate::specs::Passes::may_rise))]
pub fn may_rise(tally: Tally) -> bool
    ensures { result ≡ may_rise tally }
{
    is_clear(tally) && tally.distinct
}

// A record's leaf, the first of its six words, is written if its place is there, and the nodes above it are marked.
#[tactic(auto, unfolding(crate::specs::Passes::mark_leaf))]
pub fn mark_leaf(set: ParameterSet, store: &mut [u64], places: u64, place: u64, words: &[u64])
    requires { (first_refusal (set_refusals set) ≡ 0) × (length store.old ≡ store_words set) × (places ≡ leaf_count set) × (length words.now ≡ 6) }
    ensures { store.new ≡ mark_leaf set places place (take set.node_size words.now) store.old }
{
    if places <= place {
        return;
    }
    let d = sets::dimensions(set);
    let end = d.node_size;
    marking::write_leaf(d, store, places as usize, place as usize, &words[..end]);
}

// The pass after the tests: a record's leaf is written where nothing is refused.
#[tactic(auto, using(crate::proofs::Records::rise_unrefused), unfolding(crate::specs::Passes::mark_of, records::specs::Tests::room_of))]
pub fn mark_item(set: ParameterSet, store: &mut [u64], tally: Tally, item: Record) -> Tally
    requires { Going set 1 store.old tally 1 }
    ensures { (result ≡ (mark_of set item (pass tally store.old)).tally)
        × (store.new ≡ (mark_of set item (pass tally store.old)).buffer) }
{
    if !may_rise(tally) {
        return tally;
    }
    mark_leaf(set, store, tally.places, item.place, &item.words);
    tally
}

// The node over a place is rewritten if it is marked, on the level of these numbers: the count that is handed in goes on.
fn rewrite_record(
    set: ParameterSet,
    store: &mut [u64],
    places: u64,
    before: usize,
    under: usize,
    place: u64,
    made: u64,
) -> u64
    requires { (first_refusal (set_refusals set) ≡ 0) × (length store.old ≡ store_words set) × (places ≡ leaf_count set) × (Rank (dimensions_of set) before under)
        × (place < leaf_count set) × (made + 1 < 2 ^ 64) }
    ensures { (result ≡ (rewrite_marked (tree_of_set set) mark places (before + place / under) (counted store.old made)).made)
        × (store.new ≡ (rewrite_marked (tree_of_set set) mark places (before + place / under) (counted store.old made)).store) }
{
    let d = sets::dimensions(set);
    rewriting::rewrite_over(
        d,
        &set.diagonal,
        &set.constants,
        store,
        places as usize,
        before,
        under,
        place as usize,
        made,
    )
}

// A pass over a level: the node over a record's place is rewritten where nothing is refused.
#[tactic(auto, using(crate::proofs::Records::may_unrefused, crate::proofs::Records::may_inside), unfolding(crate::specs::Passes::rise_of, records::specs::Tests::room_of))]
pub fn rise_item(set: ParameterSet, store: &mut [u64], tally: Tally, place: u64) -> Tally
    requires { Going set 2 store.old tally 1 }
    ensures { (result ≡ (rise_of set place (pass tally store.old)).tally)
        × (store.new ≡ (rise_of set place (pass tally store.old)).buffer) }
{
    if !may_write(tally, place) {
        return tally;
    }
    let count = rewrite_record(
        set,
        store,
        tally.places,
        tally.before,
        tally.under,
        place,
        tally.made,
    );
    Tally {
        made: count,
        ..tally
    }
}

// What a pass does with a record, by its phase.
#[tactic(auto, unfolding(crate::specs::Passes::step_of, records::specs::Tests::room_of))]
pub fn step(
    set: ParameterSet,
    buffer: &mut [u64],
    phase: Phase,
    tally: Tally,
    item: Record,
) -> Tally
    requires { Going set (phase_number phase) buffer.old tally 1 }
    ensures { (result ≡ (step_of set (phase_number phase) item (pass tally buffer.old)).tally)
        × (buffer.new ≡ (step_of set (phase_number phase) item (pass tally buffer.old)).buffer) }
{
    match phase {
        Phase::Test => test_record(set, buffer, tally, item),
        Phase::Mark => mark_item(set, buffer, tally, item),
        Phase::Level => rise_item(set, buffer, tally, item.place),
        Phase::Search(window) => note_record(buffer, window * WINDOW, tally, item.place),
    }
}
