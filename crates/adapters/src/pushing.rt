// Pushes for callers that have no slice of records: the records are passed by value, or as numbers.
ghost use Rattle.std.specs.Prelude.{◌≡◌, ◌≤◌, length, take};
ghost use Rattle.change_entries.specs.Replacement.{changed_reply};
ghost use Rattle.push_entries.specs.Pushes.{push_reply, pushed};
ghost use Rattle.adapters.specs.Listed.{first_records};

use parameters::ParameterSet;
use records::{Record, listing};
use refusals::Refusal;

// A push of the first records of an array.
pub fn push_first(
    set: ParameterSet,
    store: &mut [u64],
    records: [Record; 192],
    count: usize,
) -> Result<u64, Refusal>
    requires { count ≤ 192 }
    ensures { (changed_reply result ≡ push_reply set store.old (take count records))
        × (store.new ≡ pushed set store.old (take count records)) }
{
    push_entries::push(set, store, &records[..count])
}

// A push of the records of a list with seven numbers for each, at most 192.
pub fn push_list(set: ParameterSet, store: &mut [u64], numbers: &[u64]) -> Result<u64, Refusal>
    ensures { (changed_reply result ≡ push_reply set store.old (first_records numbers.now))
        × (store.new ≡ pushed set store.old (first_records numbers.now)) }
{
    let count = (numbers.len() / 7).min(192);
    let blank = Record {
        place: 0,
        words: [0; 6],
    };
    let mut records = [blank; 192];
    for i in 0..count {
        records[i] = listing::record_at(numbers, i);
    }
    push_first(set, store, records, count)
}
