// Pushes of a slice of records, and of records that are handed in as numbers, seven for each: for callers that have no such slice.
ghost use Rattle.std.specs.Prelude.{◌≡◌};
ghost use Rattle.change_entries.specs.Replacement.{changed_reply};
ghost use Rattle.push_entries.specs.Pushes.{push_reply, pushed};
ghost use Rattle.push_entries.specs.Listed.{listed_reply, listed_pushed};

use crate::ends;
use parameters::ParameterSet;
use pushes::{Phase, levels};
use records::Record;
use records::listing::Numbers;
use refusals::Refusal;

// All records are tested and a place that stands twice is searched; then all leaves are written, the nodes above them marked, and the marked
// nodes rewritten level by level; or nothing is written. The places that are compared are kept in an array.
pub fn push(set: ParameterSet, store: &mut [u64], records: &[Record]) -> Result<u64, Refusal>
    ensures { (changed_reply result ≡ push_reply set store.old records.now)
        × (store.new ≡ pushed set store.old records.now) }
{
    let begun = ends::begin(set, store, records.len())?;
    let mut seen = [0u64; 128];
    let tested = passes::each(set, &mut seen, records, Phase::Test, begun);
    let searched = passes::search(set, records, tested);
    let marked = passes::each(set, store, records, Phase::Mark, searched);
    let risen = passes::rise(set, store, records, marked);
    let swept = levels::sweep(set, store, risen);
    ends::finish(swept)
}

// The same of the records of a list of numbers.
pub fn push_listed(set: ParameterSet, store: &mut [u64], numbers: &[u64]) -> Result<u64, Refusal>
    ensures { (changed_reply result ≡ listed_reply set store.old numbers.now)
        × (store.new ≡ listed_pushed set store.old numbers.now) }
{
    if numbers.len() % 7 != 0 {
        state_entries::check(set)?;
        return Err(Refusal::BadLength);
    }
    let begun = ends::begin(set, store, numbers.len() / 7)?;
    let mut seen = [0u64; 128];
    let records = Numbers(numbers);
    let tested = passes::each(set, &mut seen, records, Phase::Test, begun);
    let searched = passes::search(set, records, tested);
    let marked = passes::mark_listed(set, store, numbers, searched);
    let risen = passes::rise(set, store, records, marked);
    let swept = levels::sweep(set, store, risen);
    ends::finish(swept)
}
