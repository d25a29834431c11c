// Trees for C: building, roots, openings and their verification.
ghost use Rattle.std.specs.Prelude.{◌≡◌};
ghost use Rattle.set_arrays.specs.Arrays.{set_of};
ghost use Rattle.tree_entries.specs.Trees.{build_reply, built, root_reply, rooted, storeless_reply, storeless_rooted, open_reply, opened, verify_reply, sizes_reply};
ghost use Rattle.replies.specs.Replies.{number_of, value_at, verdict_number};

// The whole store of a list of leaves.
#[unsafe(no_mangle)]
pub extern "C" fn opening_tree_build(set: &[u64; 238], leaves: &[u64], store: &mut [u64]) -> u8
    ensures { (result ≡ number_of (build_reply (set_of set.now) leaves.now store.old))
        × (store.new ≡ built (set_of set.now) leaves.now store.old) }
{
    let handed = set_arrays::read(set);
    replies::of_outcome(opening_tree::build(handed, leaves, store))
}

// The root of a store.
#[unsafe(no_mangle)]
pub extern "C" fn opening_tree_root(set: &[u64; 238], store: &[u64], node: &mut [u64]) -> u8
    ensures { (result ≡ number_of (root_reply (set_of set.now) store.now node.old))
        × (node.new ≡ rooted (set_of set.now) store.now node.old) }
{
    let handed = set_arrays::read(set);
    replies::of_outcome(opening_tree::root(handed, store, node))
}

// The root of a list of leaves, without a store.
#[unsafe(no_mangle)]
pub extern "C" fn opening_tree_storeless_root(
    set: &[u64; 238],
    leaves: &[u64],
    node: &mut [u64],
) -> u8
    ensures { (result ≡ number_of (storeless_reply (set_of set.now) leaves.now node.old))
        × (node.new ≡ storeless_rooted (set_of set.now) leaves.now node.old) }
{
    let handed = set_arrays::read(set);
    replies::of_outcome(opening_tree::storeless_root(handed, leaves, node))
}

// The opening of a place.
#[unsafe(no_mangle)]
pub extern "C" fn opening_tree_open(
    set: &[u64; 238],
    store: &[u64],
    place: u64,
    siblings: &mut [u64],
) -> u8
    ensures { (result ≡ number_of (open_reply (set_of set.now) store.now place siblings.old))
        × (siblings.new ≡ opened (set_of set.now) store.now place siblings.old) }
{
    let handed = set_arrays::read(set);
    replies::of_outcome(opening_tree::open(handed, store, place, siblings))
}

// The sizes of the leaves, of a store and of an opening, in numbers.
#[unsafe(no_mangle)]
pub extern "C" fn opening_tree_sizes(
    set: &[u64; 238],
    leaves: &mut u64,
    store: &mut u64,
    opening: &mut u64,
) -> u8
    ensures { (result ≡ number_of (sizes_reply (set_of set.now)))
        × (leaves.new ≡ value_at 0 (sizes_reply (set_of set.now)) leaves.old)
        × (store.new ≡ value_at 1 (sizes_reply (set_of set.now)) store.old)
        × (opening.new ≡ value_at 2 (sizes_reply (set_of set.now)) opening.old) }
{
    let handed = set_arrays::read(set);
    replies::of_sizing(opening_tree::sizes(handed), leaves, store, opening)
}

// Whether a leaf with its siblings at a place ends in a root: 0 is accepted, 255 rejected.
#[unsafe(no_mangle)]
pub extern "C" fn opening_tree_verify(
    set: &[u64; 238],
    root: &[u64],
    place: u64,
    leaf: &[u64],
    siblings: &[u64],
) -> u8
    ensures { result ≡ verdict_number (verify_reply (set_of set.now) root.now place leaf.now siblings.now) }
{
    let handed = set_arrays::read(set);
    replies::of_verdict(opening_tree::verify(handed, root, place, leaf, siblings))
}
