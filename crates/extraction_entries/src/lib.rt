// The extraction of a collision from two leaves that are both accepted at one place, under a set that is handed in.
#![tactic(auto)]

ghost use Rattle.std.specs.Prelude.{◌≡◌, not, [], ◌∷◌};
ghost use Rattle.modular.specs.Arithmetic.{all_words};
ghost use Rattle.refusals.specs.Table.{refusal, first_refusal};
ghost use Rattle.refusals.specs.Answers.{refusal_number};
ghost use Rattle.fields.specs.Prime.{prime};
ghost use Rattle.parameters.specs.ParameterSet.{set_refusals};
ghost use Rattle.merkle.specs.Openings.{accepts};
ghost use Rattle.trees.specs.SetTrees.{tree_of_set};
ghost use Rattle.tree_entries.specs.Trees.{verify_refusals};
ghost use Rattle.extraction_entries.specs.Extraction.{extraction_reply, opens, pair, pair_of, pair_words, pair_fits, pair_refusals, extract_refusals, extract_reply, extracted_first, extracted_second};

use parameters::ParameterSet;
use refusals::Refusal;
use tree_entries::Verdict;
use trees::sets;

// A leaf with its siblings.
#[derive(Clone, Copy)]
struct Opening<'a> {
    leaf: &'a [u64],
    siblings: &'a [u64],
}

// What extraction is handed beside the set and the buffers.
#[derive(Clone, Copy)]
struct Pair<'a> {
    root: &'a [u64],
    place: u64,
    first: Opening<'a>,
    second: Opening<'a>,
}

// Whether a leaf and its siblings have their lengths.
fn opening_fits(set: ParameterSet, opening: Opening) -> bool
    requires { first_refusal (set_refusals set) ≡ 0 }
    ensures { result ≡ opens set opening.entry.leaf.now opening.entry.siblings.now }
{
    opening.leaf.len() as u64 == set.node_size && opening.siblings.len() == sets::opening_words(set)
}

// Whether every list and buffer has its length.
#[tactic(auto, unfolding(crate::specs::Extraction::pair_fits))]
fn lengths_fit(set: ParameterSet, two: Pair, first_row: &[u64], second_row: &[u64]) -> bool
    requires { first_refusal (set_refusals set) ≡ 0 }
    ensures { result ≡ pair_fits set (pair_of two.entry) first_row.now second_row.now }
{
    two.root.len() as u64 == set.node_size
        && opening_fits(set, two.first)
        && opening_fits(set, two.second)
        && first_row.len() as u64 == set.width
        && second_row.len() as u64 == set.width
}

// Whether every number of the root, the leaves and their siblings is a word.
#[tactic(auto, using(modular::proofs::Words::words_both))]
fn is_words(two: Pair) -> bool
    ensures { result ≡ all_words prime (pair_words (pair_of two.entry)) }
{
    parameters::all_words(two.root)
        && parameters::all_words(two.first.leaf)
        && parameters::all_words(two.first.siblings)
        && parameters::all_words(two.second.leaf)
        && parameters::all_words(two.second.siblings)
}

// The first of refusals 1 to 12 that applies.
fn check_pair(
    set: ParameterSet,
    two: Pair,
    first_row: &[u64],
    second_row: &[u64],
) -> Result<(), Refusal>
    ensures { refusal_number result ≡ first_refusal (pair_refusals set (pair_of two.entry) first_row.now second_row.now) }
{
    state_entries::check(set)?;
    if !lengths_fit(set, two, first_row, second_row) {
        return Err(Refusal::BadLength);
    }
    if sets::places(set) as u64 <= two.place {
        return Err(Refusal::BadPlace);
    }
    if !is_words(two) {
        return Err(Refusal::NotAWord);
    }
    Ok(())
}

// Refusal 14 where an opening that passes refusals 1 to 12 is not accepted.
fn check_opening(
    set: ParameterSet,
    root: &[u64],
    place: u64,
    opening: Opening,
) -> Result<(), Refusal>
    requires { first_refusal (verify_refusals set root.now place opening.leaf.now opening.siblings.now) ≡ 0 }
    ensures { refusal_number result ≡ first_refusal (refusal 14 (not (accepts (tree_of_set set) set.height root.now place opening.entry.leaf.now opening.entry.siblings.now)) ∷ []) }
{
    match tree_entries::verify(set, root, place, opening.leaf, opening.siblings) {
        Verdict::Accepted => Ok(()),
        Verdict::Rejected => Err(Refusal::NotAccepted),
        Verdict::Refused(_) => unreachable!(),
    }
}

// The first refusal of a pair of openings. Of equal leaves no verdict is asked for.
fn check_extract(
    set: ParameterSet,
    two: Pair,
    first_row: &[u64],
    second_row: &[u64],
) -> Result<(), Refusal>
    ensures { refusal_number result ≡ first_refusal (extract_refusals set (pair_of two.entry) first_row.now second_row.now) }
{
    check_pair(set, two, first_row, second_row)?;
    if paths::comparison::same_words(two.first.leaf, two.second.leaf) {
        return Err(Refusal::EqualLeaves);
    }
    check_opening(set, two.root, two.place, two.first)?;
    check_opening(set, two.root, two.place, two.second)
}

// The lowest level at which the rows of the two leaves differ and compress alike. The first leaf's row there is written to the first
// buffer, the second's to the second.
pub fn extract(
    set: ParameterSet,
    root: &[u64],
    place: u64,
    first: &[u64],
    first_siblings: &[u64],
    second: &[u64],
    second_siblings: &[u64],
    first_row: &mut [u64],
    second_row: &mut [u64],
) -> Result<u64, Refusal>
    ensures { (extraction_reply result ≡ extract_reply set (pair root.now place first.now first_siblings.now second.now second_siblings.now) first_row.old second_row.old)
        × (first_row.new ≡ extracted_first set (pair root.now place first.now first_siblings.now second.now second_siblings.now) first_row.old second_row.old)
        × (second_row.new ≡ extracted_second set (pair root.now place first.now first_siblings.now second.now second_siblings.now) first_row.old second_row.old) }
{
    let two = Pair {
        root,
        place,
        first: Opening {
            leaf: first,
            siblings: first_siblings,
        },
        second: Opening {
            leaf: second,
            siblings: second_siblings,
        },
    };
    check_extract(set, two, first_row, second_row)?;
    let d = sets::dimensions(set);
    let at = place as usize;
    let level = paths::collisions::lowest_level(
        d,
        &set.diagonal,
        &set.constants,
        at,
        first,
        first_siblings,
        second,
        second_siblings,
    );
    paths::collisions::copy_row(
        d,
        &set.diagonal,
        &set.constants,
        at,
        first,
        first_siblings,
        level,
        first_row,
    );
    paths::collisions::copy_row(
        d,
        &set.diagonal,
        &set.constants,
        at,
        second,
        second_siblings,
        level,
        second_row,
    );
    Ok(level as u64)
}
