// Sets that are validated, and sets whose kept values a line changes.
use harness::answers::Refused;
use harness::handed::Numbers;
use harness::input::Input;
use harness::shown::Spaced;
use harness::{handed, lists};
use opening_tree::Refusal;
use parameters::ParameterSet;
use std::fmt;
use std::fmt::Write;
use streams::Output;

// What stands for a set that is refused (Rules 2.6).
const NO_SET: ParameterSet = ParameterSet {
    width: 0,
    node_size: 0,
    height: 0,
    full_rounds: 0,
    partial_rounds: 0,
    diagonal: [0; 12],
    constants: [0; 208],
    inverses: [0; 12],
    total_inverse: 0,
};

// The digest of all that a set holds, its unused places too.
fn digest_of(set: &ParameterSet) -> u64 {
    let inverses = lists::digest_after(handed::digest_of(set), &set.inverses);
    lists::digest_after(inverses, &[set.total_inverse])
}

// The rest of a line: what validation answers, or an exchange.
pub fn print_answer(out: &mut Output, answer: Result<ParameterSet, Refusal>) -> fmt::Result {
    match answer {
        Ok(set) => {
            let digest = digest_of(&set);
            let inverses = Spaced(&set.inverses);
            let total_inverse = set.total_inverse;
            writeln!(out, " accepted {digest} kept{inverses} {total_inverse}")
        }
        Err(refusal) => { writeln!(out, " {} {}", Refused(refusal), digest_of(&NO_SET)) }
    }
}

// One set to validate.
pub fn case(out: &mut Output, input: &mut Input<'_>) -> fmt::Result {
    let numbers = Numbers::read(input);
    let answer = handed::validate(input, numbers);
    write!(out, "{numbers} validate")?;
    print_answer(out, answer)
}

// A line's set, after its runs are written over the kept values: the inverses of D, and then the inverse of 1 plus their sum.
pub fn read(input: &mut Input<'_>) -> (Numbers, ParameterSet) {
    let (numbers, right) = handed::read_set(input);
    let mut kept = [0; 13];
    kept[..12].copy_from_slice(&right.inverses);
    kept[12] = right.total_inverse;
    lists::read_runs(input, &mut kept);
    let mut set = right;
    set.inverses.copy_from_slice(&kept[..12]);
    set.total_inverse = kept[12];
    (numbers, set)
}
