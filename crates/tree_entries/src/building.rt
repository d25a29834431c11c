// Building and roots, under a set that is handed in.
ghost use Rattle.std.specs.Prelude.{◌≡◌};
ghost use Rattle.refusals.specs.Table.{first_refusal};
ghost use Rattle.refusals.specs.Answers.{refusal_number};
ghost use Rattle.state_entries.specs.Permutation.{outcome_reply};
ghost use Rattle.tree_entries.specs.Trees.{build_refusals, build_reply, built, root_refusals, root_reply, rooted, storeless_refusals, storeless_reply, storeless_rooted};

use parameters::ParameterSet;
use refusals::Refusal;
use trees::sets;

// The first refusal of a set, leaves and a store to be written.
fn check_build(set: ParameterSet, leaves: &[u64], store: &[u64]) -> Result<(), Refusal>
    ensures { refusal_number result ≡ first_refusal (build_refusals set leaves.now store.now) }
{
    state_entries::check(set)?;
    if leaves.len() != sets::leaf_words(set) {
        return Err(Refusal::BadLength);
    }
    if store.len() != sets::store_words(set) {
        return Err(Refusal::BadLength);
    }
    if !parameters::all_words(leaves) {
        return Err(Refusal::NotAWord);
    }
    Ok(())
}

// The whole store of a list of leaves.
pub fn build(set: ParameterSet, leaves: &[u64], store: &mut [u64]) -> Result<(), Refusal>
    ensures { (outcome_reply result ≡ build_reply set leaves.now store.old)
        × (store.new ≡ built set leaves.now store.old) }
{
    check_build(set, leaves, store)?;
    let d = sets::dimensions(set);
    trees::build(d, &set.diagonal, &set.constants, leaves, store);
    Ok(())
}

// The first refusal of a set, a store and a node to be written.
fn check_root(set: ParameterSet, store: &[u64], node: &[u64]) -> Result<(), Refusal>
    ensures { refusal_number result ≡ first_refusal (root_refusals set store.now node.now) }
{
    state_entries::check(set)?;
    if store.len() != sets::store_words(set) {
        return Err(Refusal::BadLength);
    }
    if node.len() as u64 != set.node_size {
        return Err(Refusal::BadLength);
    }
    if !trees::ends_in_words(store, node.len()) {
        return Err(Refusal::NotAWord);
    }
    Ok(())
}

// The root of a store: its last l words.
pub fn root(set: ParameterSet, store: &[u64], node: &mut [u64]) -> Result<(), Refusal>
    ensures { (outcome_reply result ≡ root_reply set store.now node.old)
        × (node.new ≡ rooted set store.now node.old) }
{
    check_root(set, store, node)?;
    let d = sets::dimensions(set);
    trees::copy_root(d, store, node);
    Ok(())
}

// The first refusal of a set, leaves and a node to be written.
fn check_storeless(set: ParameterSet, leaves: &[u64], node: &[u64]) -> Result<(), Refusal>
    ensures { refusal_number result ≡ first_refusal (storeless_refusals set leaves.now node.now) }
{
    state_entries::check(set)?;
    if leaves.len() != sets::leaf_words(set) {
        return Err(Refusal::BadLength);
    }
    if node.len() as u64 != set.node_size {
        return Err(Refusal::BadLength);
    }
    if !parameters::all_words(leaves) {
        return Err(Refusal::NotAWord);
    }
    Ok(())
}

// The root of a list of leaves, without a store.
pub fn storeless_root(set: ParameterSet, leaves: &[u64], node: &mut [u64]) -> Result<(), Refusal>
    ensures { (outcome_reply result ≡ storeless_reply set leaves.now node.old)
        × (node.new ≡ storeless_rooted set leaves.now node.old) }
{
    check_storeless(set, leaves, node)?;
    let d = sets::dimensions(set);
    storeless::storeless_root(d, &set.diagonal, &set.constants, leaves, node);
    Ok(())
}
