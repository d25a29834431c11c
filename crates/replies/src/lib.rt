// What an entry answers, as numbers: the one that is returned, and the one that a result is written to.
#![tactic(auto)]

ghost use Rattle.std.specs.Prelude.{◌≡◌};
ghost use Rattle.field_entries.specs.Arithmetic.{reply_of};
ghost use Rattle.state_entries.specs.Permutation.{outcome_reply};
ghost use Rattle.tree_entries.specs.Trees.{verdict_reply, sizing_reply};
ghost use Rattle.replies.specs.Replies.{number_of, value_at, value_after, verdict_number};

use refusals::Refusal;
use tree_entries::{TreeSizes, Verdict};

const REJECTED: u8 = 255;

// Of an entry whose result is in a buffer.
#[tactic(auto, unfolding(crate::specs::Replies::number_of))]
pub fn of_outcome(outcome: Result<(), Refusal>) -> u8
    ensures { result ≡ number_of (outcome_reply outcome) }
{
    match outcome {
        Ok(()) => 0,
        Err(refusal) => refusal.number(),
    }
}

#[tactic(auto, unfolding(crate::specs::Replies::verdict_number, tree_entries::specs::Trees::verdict_reply))]
pub fn of_verdict(verdict: Verdict) -> u8
    ensures { result ≡ verdict_number (verdict_reply verdict) }
{
    match verdict {
        Verdict::Accepted => 0,
        Verdict::Rejected => REJECTED,
        Verdict::Refused(n) => n,
    }
}

// Of an entry whose result is one number: a word, the compressions made or a level.
#[tactic(auto, unfolding(crate::specs::Replies::number_of, crate::specs::Replies::value_at))]
pub fn of_answer(answer: Result<u64, Refusal>, res: &mut u64) -> u8
    ensures { (result ≡ number_of (reply_of answer)) × (res.new ≡ value_after (reply_of answer) res.old) }
{
    match answer {
        Ok(x) => {
            *res = x;
            0
        }
        Err(refused) => refused.number(),
    }
}

#[tactic(auto, unfolding(crate::specs::Replies::number_of, crate::specs::Replies::value_at))]
pub fn of_sizing(
    sizing: Result<TreeSizes, Refusal>,
    leaves: &mut u64,
    store: &mut u64,
    opening: &mut u64,
) -> u8
    ensures { (result ≡ number_of (sizing_reply sizing)) × (leaves.new ≡ value_at 0 (sizing_reply sizing) leaves.old)
        × (store.new ≡ value_at 1 (sizing_reply sizing) store.old) × (opening.new ≡ value_at 2 (sizing_reply sizing) opening.old) }
{
    match sizing {
        Ok(found) => {
            *leaves = found.leaves;
            *store = found.store;
            *opening = found.opening;
            0
        }
        Err(turned_down) => turned_down.number(),
    }
}
