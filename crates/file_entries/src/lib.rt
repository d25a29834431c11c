// The entry that makes a leaf from a file.
#![tactic(auto)]

ghost use Rattle.std.specs.Prelude.{◌≡◌};
ghost use Rattle.refusals.specs.Table.{first_refusal};
ghost use Rattle.refusals.specs.Answers.{refusal_number};
ghost use Rattle.state_entries.specs.Permutation.{outcome_reply};
ghost use Rattle.file_entries.specs.Files.{file_refusals, file_reply, leaf_written};

use parameters::ParameterSet;
use refusals::Refusal;

// Whether a set, the contents of a file and a leaf to be written are accepted, or their first refusal. Of the contents only the length is asked.
fn check_file(set: ParameterSet, contents: &[u8], leaf: &[u64]) -> Result<(), Refusal>
    ensures { refusal_number result ≡ first_refusal (file_refusals set contents.now leaf.now) }
{
    state_entries::check(set)?;
    if leaf.len() as u64 != set.node_size {
        return Err(Refusal::BadLength);
    }
    if 4294967295 < contents.len() {
        return Err(Refusal::FileTooLong);
    }
    Ok(())
}

// The leaf of a file, of its contents.
pub fn leaf_of_file(set: ParameterSet, contents: &[u8], leaf: &mut [u64]) -> Result<(), Refusal>
    ensures { (outcome_reply result ≡ file_reply set contents.now leaf.old)
        × (leaf.new ≡ leaf_written set contents.now leaf.old) }
{
    check_file(set, contents, leaf)?;
    let width = set.width as usize;
    let node_size = set.node_size as usize;
    let half = (set.full_rounds / 2) as usize;
    let partial_rounds = set.partial_rounds as usize;
    files::leaf_of(
        width,
        node_size,
        half,
        partial_rounds,
        &set.diagonal,
        &set.constants,
        contents,
        leaf,
    );
    Ok(())
}
