// Leaves of files, for C.
ghost use Rattle.std.specs.Prelude.{◌≡◌};
ghost use Rattle.set_arrays.specs.Arrays.{set_of};
ghost use Rattle.file_entries.specs.Files.{file_reply, leaf_written};
ghost use Rattle.replies.specs.Replies.{number_of};

// The leaf of a file, of its contents.
#[unsafe(no_mangle)]
pub extern "C" fn opening_tree_leaf_of_file(
    set: &[u64; 238],
    contents: &[u8],
    leaf: &mut [u64],
) -> u8
    ensures { (result ≡ number_of (file_reply (set_of set.now) contents.now leaf.old))
        × (leaf.new ≡ leaf_written (set_of set.now) contents.now leaf.old) }
{
    let handed = set_arrays::read(set);
    replies::of_outcome(opening_tree::leaf_of_file(handed, contents, leaf))
}
