// How large the leaves, the store and an opening of a set's tree are.
ghost use Rattle.std.specs.Prelude.{◌≡◌};
ghost use Rattle.tree_entries.specs.Trees.{sizing_reply, sizes_reply};

use parameters::ParameterSet;
use refusals::Refusal;
use trees::sets;

// In numbers.
#[derive(Clone, Copy, Debug, PartialEq, Eq)]
pub struct TreeSizes {
    pub leaves: u64,
    pub store: u64,
    pub opening: u64,
}

// The sizes of the tree of a set.
pub fn sizes(set: ParameterSet) -> Result<TreeSizes, Refusal>
    ensures { sizing_reply result ≡ sizes_reply set }
{
    state_entries::check(set)?;
    Ok(TreeSizes {
        leaves: sets::leaf_words(set) as u64,
        store: sets::store_words(set) as u64,
        opening: sets::opening_words(set) as u64,
    })
}
