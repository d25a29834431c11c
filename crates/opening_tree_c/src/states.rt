// The permutation, its inverse and the compression, for C.
ghost use Rattle.std.specs.Prelude.{◌≡◌};
ghost use Rattle.set_arrays.specs.Arrays.{set_of};
ghost use Rattle.state_entries.specs.Permutation.{state_reply, permuted, unpermuted, compress_reply, compressed};
ghost use Rattle.replies.specs.Replies.{number_of};

// The permutation of a state of t numbers, in place.
#[unsafe(no_mangle)]
pub extern "C" fn opening_tree_permute(set: &[u64; 238], state: &mut [u64]) -> u8
    ensures { (result ≡ number_of (state_reply (set_of set.now) state.old))
        × (state.new ≡ permuted (set_of set.now) state.old) }
{
    let handed = set_arrays::read(set);
    replies::of_outcome(opening_tree::permute(handed, state))
}

// The state whose permutation is given, in place.
#[unsafe(no_mangle)]
pub extern "C" fn opening_tree_unpermute(set: &[u64; 238], state: &mut [u64]) -> u8
    ensures { (result ≡ number_of (state_reply (set_of set.now) state.old))
        × (state.new ≡ unpermuted (set_of set.now) state.old) }
{
    let handed = set_arrays::read(set);
    replies::of_outcome(opening_tree::unpermute(handed, state))
}

// The compression of a state of t numbers to a node of l.
#[unsafe(no_mangle)]
pub extern "C" fn opening_tree_compress(set: &[u64; 238], state: &[u64], node: &mut [u64]) -> u8
    ensures { (result ≡ number_of (compress_reply (set_of set.now) state.now node.old))
        × (node.new ≡ compressed (set_of set.now) state.now node.old) }
{
    let handed = set_arrays::read(set);
    replies::of_outcome(opening_tree::compress(handed, state, node))
}
