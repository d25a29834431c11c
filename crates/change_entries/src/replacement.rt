// A leaf replaced in a store, under a set that is handed in.
ghost use Rattle.std.specs.Prelude.{◌≡◌};
ghost use Rattle.refusals.specs.Table.{first_refusal};
ghost use Rattle.refusals.specs.Answers.{refusal_number};
ghost use Rattle.change_entries.specs.Replacement.{changed_reply, replace_refusals, replace_reply, replaced};

use parameters::ParameterSet;
use refusals::Refusal;
use trees::sets;

// The first refusal of a set, a store, a place and a leaf.
fn check_replace(set: ParameterSet, store: &[u64], place: u64, leaf: &[u64]) -> Result<(), Refusal>
    ensures { refusal_number result ≡ first_refusal (replace_refusals set store.now place leaf.now) }
{
    state_entries::check(set)?;
    if store.len() != sets::store_words(set) {
        return Err(Refusal::BadLength);
    }
    if leaf.len() as u64 != set.node_size {
        return Err(Refusal::BadLength);
    }
    if sets::places(set) as u64 <= place {
        return Err(Refusal::BadPlace);
    }
    if !parameters::all_words(leaf) {
        return Err(Refusal::NotAWord);
    }
    let d = sets::dimensions(set);
    if !trees::opening_is_words(d, store, place as usize) {
        return Err(Refusal::NotAWord);
    }
    Ok(())
}

// The leaf is written at its place and the nodes above it are made anew; the answer is how many these are.
pub fn replace(
    set: ParameterSet,
    store: &mut [u64],
    place: u64,
    leaf: &[u64],
) -> Result<u64, Refusal>
    ensures { (changed_reply result ≡ replace_reply set store.old place leaf.now)
        × (store.new ≡ replaced set store.old place leaf.now) }
{
    check_replace(set, store, place, leaf)?;
    let d = sets::dimensions(set);
    let made = trees::replace(
        d,
        &set.diagonal,
        &set.constants,
        store,
        place as usize,
        leaf,
    );
    Ok(made)
}
