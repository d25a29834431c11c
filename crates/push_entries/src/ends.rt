// Where a push begins and what it answers.
ghost use Rattle.std.specs.Prelude.{◌≡◌, IfOk};
ghost use Rattle.refusals.specs.Table.{first_refusal};
ghost use Rattle.refusals.specs.Answers.{refusal_number};
ghost use Rattle.change_entries.specs.Replacement.{changed_reply};
ghost use Rattle.push_entries.specs.Ends.{early_refusals, begin_of, finish_of};

use parameters::ParameterSet;
use pushes::levels;
use records::tally::Tally;
use refusals::Refusal;
use trees::sets;

// What a push begins with: the first of refusals 1 to 10 that applies, or the places, whether the store is words, whether the records are
// few, and how many levels have more than eight nodes a record.
pub fn begin(set: ParameterSet, store: &[u64], count: usize) -> Result<Tally, Refusal>
    ensures refused { refusal_number result ≡ first_refusal (early_refusals set store.now count) }
    ensures begun { IfOk result (λ tally. tally ≡ begin_of set store.now count) }
{
    state_entries::check(set)?;
    if store.len() != sets::store_words(set) {
        return Err(Refusal::BadLength);
    }
    if 4294967296 < count {
        return Err(Refusal::BadLength);
    }
    let d = sets::dimensions(set);
    let places = sets::places(set) as u64;
    Ok(Tally {
        places,
        words: parameters::all_words(store),
        few: count <= 128,
        levels: levels::count(d.arity as u64, set.height, places, count as u64 * 8),
        under: d.arity,
        ..Tally::empty()
    })
}

// The first of refusals 11, 12 and 17 that applies, or the count, of a push that none of 1 to 10 stopped.
pub fn finish(tally: Tally) -> Result<u64, Refusal>
    ensures { tally.number ≡ 0 → changed_reply result ≡ finish_of tally }
{
    if !tally.placed {
        return Err(Refusal::BadPlace);
    }
    if !tally.words {
        return Err(Refusal::NotAWord);
    }
    if !tally.distinct {
        return Err(Refusal::RepeatedPlace);
    }
    Ok(tally.made)
}
