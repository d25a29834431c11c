// The library's public entries, each defined in a crate of its own kind. None presumes anything of its caller: each answers the first of its
// refusals that applies, in the order of Rules 8.8 and with every buffer as it was, or does the work.
#![tactic(auto)]

pub use change_entries::replace;
pub use extraction_entries::extract;
pub use field_entries::{difference, inverse, power, product, seventh_root, sum};
pub use file_entries::leaf_of_file;
pub use parameters::ParameterSet;
pub use push_entries::{push, push_listed};
pub use reader_entries::{OpeningReader, copy_level, part_at, read_level, reader};
pub use records::Record;
pub use refusals::Refusal;
pub use set_entries::{exchange_diagonal, exchange_height};
pub use state_entries::{compress, permute, unpermute, validate};
pub use tree_entries::{TreeSizes, Verdict, build, open, root, sizes, storeless_root, verify};
