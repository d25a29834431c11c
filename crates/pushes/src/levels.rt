// The levels of a push: how many are made by going over the records, the next of them, and all nodes above them.
ghost use Rattle.std.specs.Prelude.{◌≡◌, ◌+◌, ◌-◌, ◌^◌, ◌≤◌, ◌<◌, length};
ghost use Rattle.refusals.specs.Table.{first_refusal};
ghost use Rattle.parameters.specs.ParameterSet.{set_refusals};
ghost use Rattle.merkle.specs.Marks.{sweep};
ghost use Rattle.merkle.specs.Numbering.{inner};
ghost use Rattle.trees.specs.Shapes.{counted};
ghost use Rattle.trees.specs.SetTrees.{tree_of_set, leaf_count, store_words};
ghost use Rattle.marks.specs.Marks.{mark};
ghost use Rattle.records.specs.Tests.{pass};
ghost use Rattle.pushes.specs.Passes.{Sweeping, Risen, levels_by, by_records, next_of, sweep_of};

use crate::steps;
use marks::rewriting;
use parameters::ParameterSet;
use records::tally::Tally;
use trees::sets;

// How many levels, from the lowest above the leaves on, have more nodes than `most`.
pub fn count(arity: u64, height: u64, places: u64, most: u64) -> u64
    requires { 1 ≤ arity }
    ensures { result ≡ levels_by arity height places most }
{
    let mut nodes = places;
    for level in 0..height {
        nodes /= arity;
        if nodes <= most {
            return level;
        }
    }
    height
}

// So many of a tally, and none where anything is refused.
#[tactic(auto, unfolding(crate::specs::Passes::by_records))]
pub fn by_records(tally: Tally) -> u64
    ensures { result ≡ by_records tally }
{
    if steps::may_rise(tally) {
        tally.levels
    } else {
        0
    }
}

// The numbers of the level above.
pub fn next(set: ParameterSet, tally: Tally) -> Tally
    requires { Risen set tally }
    ensures { result ≡ next_of set tally }
{
    let d = sets::dimensions(set);
    Tally {
        before: tally.before + tally.places as usize / tally.under,
        under: tally.under * d.arity,
        ..tally
    }
}

// The marked nodes from the first of these numbers on: the count that is handed in goes on.
fn sweep_from(set: ParameterSet, store: &mut [u64], places: u64, before: usize, made: u64) -> u64
    requires { (first_refusal (set_refusals set) ≡ 0) × (length store.old ≡ store_words set) × (places ≡ leaf_count set)
        × (before ≤ inner (tree_of_set set) set.height) × (made + places < 2 ^ 64) }
    ensures { (result ≡ (sweep (tree_of_set set) mark places before (inner (tree_of_set set) set.height - before) (counted store.old made)).made)
        × (store.new ≡ (sweep (tree_of_set set) mark places before (inner (tree_of_set set) set.height - before) (counted store.old made)).store) }
{
    let d = sets::dimensions(set);
    rewriting::sweep(
        d,
        &set.diagonal,
        &set.constants,
        store,
        places as usize,
        before,
        made,
    )
}

// All levels above those that are made by the records, node by node, where nothing is refused.
#[tactic(auto, using(crate::proofs::Records::rise_unrefused), unfolding(crate::specs::Passes::sweep_of))]
pub fn sweep(set: ParameterSet, store: &mut [u64], tally: Tally) -> Tally
    requires { Sweeping set store.old tally }
    ensures { (result ≡ (sweep_of set (pass tally store.old)).tally)
        × (store.new ≡ (sweep_of set (pass tally store.old)).buffer) }
{
    if !steps::may_rise(tally) {
        return tally;
    }
    let made = sweep_from(set, store, tally.places, tally.before, tally.made);
    Tally { made, ..tally }
}
