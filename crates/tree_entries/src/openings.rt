// Openings and their verification, under a set that is handed in.
ghost use Rattle.std.specs.Prelude.{◌≡◌, [], ◌∷◌, ◌++◌};
ghost use Rattle.refusals.specs.Table.{first_refusal, not_words};
ghost use Rattle.refusals.specs.Answers.{refusal_number};
ghost use Rattle.fields.specs.Prime.{prime};
ghost use Rattle.state_entries.specs.Permutation.{outcome_reply};
ghost use Rattle.tree_entries.specs.Trees.{open_refusals, open_reply, opened, verdict_reply, verify_refusals, verify_reply};

use crate::verdict::Verdict;
use parameters::ParameterSet;
use refusals::Refusal;
use trees::sets;

// The first refusal of a set, a store, a place and siblings to be written.
fn check_open(set: ParameterSet, store: &[u64], place: u64, siblings: &[u64]) -> Result<(), Refusal>
    ensures { refusal_number result ≡ first_refusal (open_refusals set store.now place siblings.now) }
{
    state_entries::check(set)?;
    if store.len() != sets::store_words(set) {
        return Err(Refusal::BadLength);
    }
    if siblings.len() != sets::opening_words(set) {
        return Err(Refusal::BadLength);
    }
    if sets::places(set) as u64 <= place {
        return Err(Refusal::BadPlace);
    }
    let d = sets::dimensions(set);
    if !trees::opening_is_words(d, store, place as usize) {
        return Err(Refusal::NotAWord);
    }
    Ok(())
}

// The opening of a place: its siblings at each level.
pub fn open(
    set: ParameterSet,
    store: &[u64],
    place: u64,
    siblings: &mut [u64],
) -> Result<(), Refusal>
    ensures { (outcome_reply result ≡ open_reply set store.now place siblings.old)
        × (siblings.new ≡ opened set store.now place siblings.old) }
{
    check_open(set, store, place, siblings)?;
    let d = sets::dimensions(set);
    trees::open(d, store, place as usize, siblings);
    Ok(())
}

// Refusal 12 where a number of three lists is not a word.
fn check_words(root: &[u64], leaf: &[u64], siblings: &[u64]) -> Result<(), Refusal>
    ensures { refusal_number result ≡ first_refusal (not_words prime (root.now ++ (leaf.now ++ siblings.now)) ∷ []) }
{
    if parameters::all_words(root)
        && parameters::all_words(leaf)
        && parameters::all_words(siblings)
    {
        Ok(())
    } else {
        Err(Refusal::NotAWord)
    }
}

// The first refusal of a set, a root, a place, a leaf and siblings.
fn check_verify(
    set: ParameterSet,
    root: &[u64],
    place: u64,
    leaf: &[u64],
    siblings: &[u64],
) -> Result<(), Refusal>
    ensures { refusal_number result ≡ first_refusal (verify_refusals set root.now place leaf.now siblings.now) }
{
    state_entries::check(set)?;
    if root.len() as u64 != set.node_size {
        return Err(Refusal::BadLength);
    }
    if leaf.len() as u64 != set.node_size {
        return Err(Refusal::BadLength);
    }
    if siblings.len() != sets::opening_words(set) {
        return Err(Refusal::BadLength);
    }
    if sets::places(set) as u64 <= place {
        return Err(Refusal::BadPlace);
    }
    check_words(root, leaf, siblings)
}

// Whether a leaf with its siblings at a place ends in a root.
pub fn verify(
    set: ParameterSet,
    root: &[u64],
    place: u64,
    leaf: &[u64],
    siblings: &[u64],
) -> Verdict
    ensures { verdict_reply result ≡ verify_reply set root.now place leaf.now siblings.now }
{
    if let Err(refusal) = check_verify(set, root, place, leaf, siblings) {
        return Verdict::Refused(refusal.number());
    }
    let d = sets::dimensions(set);
    if paths::accepts(
        d,
        &set.diagonal,
        &set.constants,
        root,
        place as usize,
        leaf,
        siblings,
    ) {
        Verdict::Accepted
    } else {
        Verdict::Rejected
    }
}
