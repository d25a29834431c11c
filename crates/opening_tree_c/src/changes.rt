// Changes of a store and collisions, for C.
ghost use Rattle.std.specs.Prelude.{◌≡◌};
ghost use Rattle.set_arrays.specs.Arrays.{set_of};
ghost use Rattle.change_entries.specs.Replacement.{replace_reply, replaced};
ghost use Rattle.push_entries.specs.Listed.{listed_reply, listed_pushed};
ghost use Rattle.extraction_entries.specs.Extraction.{pair, extract_reply, extracted_first, extracted_second};
ghost use Rattle.replies.specs.Replies.{number_of, value_after};

// The leaf at its place and the nodes above it; the compressions made.
#[unsafe(no_mangle)]
pub extern "C" fn opening_tree_replace(
    set: &[u64; 238],
    store: &mut [u64],
    place: u64,
    leaf: &[u64],
    made: &mut u64,
) -> u8
    ensures { (result ≡ number_of (replace_reply (set_of set.now) store.old place leaf.now))
        × (store.new ≡ replaced (set_of set.now) store.old place leaf.now)
        × (made.new ≡ value_after (replace_reply (set_of set.now) store.old place leaf.now) made.old) }
{
    let handed = set_arrays::read(set);
    replies::of_answer(opening_tree::replace(handed, store, place, leaf), made)
}

// The leaves of a list of records at their places and the nodes above them, seven numbers a record; the compressions made.
#[unsafe(no_mangle)]
pub extern "C" fn opening_tree_push_numbers(
    set: &[u64; 238],
    store: &mut [u64],
    records: &[u64],
    made: &mut u64,
) -> u8
    ensures { (result ≡ number_of (listed_reply (set_of set.now) store.old records.now))
        × (store.new ≡ listed_pushed (set_of set.now) store.old records.now)
        × (made.new ≡ value_after (listed_reply (set_of set.now) store.old records.now) made.old) }
{
    let handed = set_arrays::read(set);
    replies::of_answer(opening_tree::push_listed(handed, store, records), made)
}

// The lowest level at which the rows of two accepted leaves collide, and both rows.
#[unsafe(no_mangle)]
pub extern "C" fn opening_tree_extract(
    set: &[u64; 238],
    root: &[u64],
    place: u64,
    first: &[u64],
    first_siblings: &[u64],
    second: &[u64],
    second_siblings: &[u64],
    first_row: &mut [u64],
    second_row: &mut [u64],
    level: &mut u64,
) -> u8
    ensures { (result ≡ number_of (extract_reply (set_of set.now) (pair root.now place first.now first_siblings.now second.now second_siblings.now) first_row.old second_row.old))
        × (first_row.new ≡ extracted_first (set_of set.now) (pair root.now place first.now first_siblings.now second.now second_siblings.now) first_row.old second_row.old)
        × (second_row.new ≡ extracted_second (set_of set.now) (pair root.now place first.now first_siblings.now second.now second_siblings.now) first_row.old second_row.old)
        × (level.new ≡ value_after (extract_reply (set_of set.now) (pair root.now place first.now first_siblings.now second.now second_siblings.now) first_row.old second_row.old) level.old) }
{
    let handed = set_arrays::read(set);
    replies::of_answer(
        opening_tree::extract(
            handed,
            root,
            place,
            first,
            first_siblings,
            second,
            second_siblings,
            first_row,
            second_row,
        ),
        level,
    )
}
