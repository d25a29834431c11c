// The opening reader, for C: a level's part is copied to a buffer.
ghost use Rattle.std.specs.Prelude.{◌≡◌};
ghost use Rattle.set_arrays.specs.Arrays.{set_of};
ghost use Rattle.reader_entries.specs.Copies.{copy_reply, copied};
ghost use Rattle.replies.specs.Replies.{number_of};

// The words of one level of an opening.
#[unsafe(no_mangle)]
pub extern "C" fn opening_tree_read_level(
    set: &[u64; 238],
    siblings: &[u64],
    level: u64,
    part: &mut [u64],
) -> u8
    ensures { (result ≡ number_of (copy_reply (set_of set.now) siblings.now level part.old))
        × (part.new ≡ copied (set_of set.now) siblings.now level part.old) }
{
    let handed = set_arrays::read(set);
    replies::of_outcome(opening_tree::copy_level(handed, siblings, level, part))
}
