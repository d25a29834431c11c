// The permutation, its inverse and the compression, under a set that is handed in.
ghost use Rattle.std.specs.Prelude.{◌≡◌};
ghost use Rattle.refusals.specs.Table.{first_refusal};
ghost use Rattle.refusals.specs.Answers.{refusal_number};
ghost use Rattle.state_entries.specs.Permutation.{outcome_reply, state_refusals, state_reply, permuted, unpermuted, compress_refusals, compress_reply, compressed};

use crate::sets;
use parameters::ParameterSet;
use refusals::Refusal;

// Whether a set and a state are accepted, or their first refusal.
fn check_state(set: ParameterSet, state: &[u64]) -> Result<(), Refusal>
    ensures { refusal_number result ≡ first_refusal (state_refusals set state.now) }
{
    sets::check(set)?;
    if state.len() as u64 != set.width {
        return Err(Refusal::BadLength);
    }
    if !parameters::all_words(state) {
        return Err(Refusal::NotAWord);
    }
    Ok(())
}

// The permutation of a state of t numbers, in place.
pub fn permute(set: ParameterSet, state: &mut [u64]) -> Result<(), Refusal>
    ensures { (outcome_reply result ≡ state_reply set state.old) × (state.new ≡ permuted set state.old) }
{
    check_state(set, state)?;
    let width = set.width as usize;
    let half = (set.full_rounds / 2) as usize;
    let partial_rounds = set.partial_rounds as usize;
    let diagonal = &set.diagonal;
    let constants = &set.constants;
    permutations::permute(width, half, partial_rounds, diagonal, constants, state);
    Ok(())
}

// The state whose permutation is given, in place.
pub fn unpermute(set: ParameterSet, state: &mut [u64]) -> Result<(), Refusal>
    ensures { (outcome_reply result ≡ state_reply set state.old) × (state.new ≡ unpermuted set state.old) }
{
    check_state(set, state)?;
    let width = set.width as usize;
    let half = (set.full_rounds / 2) as usize;
    let partial_rounds = set.partial_rounds as usize;
    permutations::unpermute(
        width,
        half,
        partial_rounds,
        &set.inverses,
        set.total_inverse,
        &set.constants,
        state,
    );
    Ok(())
}

// Whether a set, a state and a node to be written are accepted, or their first refusal.
fn check_compression(set: ParameterSet, state: &[u64], node: &[u64]) -> Result<(), Refusal>
    ensures { refusal_number result ≡ first_refusal (compress_refusals set state.now node.now) }
{
    sets::check(set)?;
    if state.len() as u64 != set.width {
        return Err(Refusal::BadLength);
    }
    if node.len() as u64 != set.node_size {
        return Err(Refusal::BadLength);
    }
    if !parameters::all_words(state) {
        return Err(Refusal::NotAWord);
    }
    Ok(())
}

// The compression of a state of t numbers to a node of l.
pub fn compress(set: ParameterSet, state: &[u64], node: &mut [u64]) -> Result<(), Refusal>
    ensures { (outcome_reply result ≡ compress_reply set state.now node.old)
        × (node.new ≡ compressed set state.now node.old) }
{
    check_compression(set, state, node)?;
    let width = set.width as usize;
    let node_size = set.node_size as usize;
    let half = (set.full_rounds / 2) as usize;
    let partial_rounds = set.partial_rounds as usize;
    permutations::compress(
        width,
        node_size,
        half,
        partial_rounds,
        &set.diagonal,
        &set.constants,
        state,
        node,
    );
    Ok(())
}
