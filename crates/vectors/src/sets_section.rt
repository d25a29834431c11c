// The section `sets`: what validation answers.
use harness::answers::Refused;
use harness::handed;
use harness::handed::Numbers;
use harness::input::Input;
use std::fmt;
use std::fmt::Write;
use streams::Output;

// One case.
pub fn case(out: &mut Output, input: &mut Input<'_>) -> fmt::Result {
    let numbers = Numbers::read(input);
    match handed::validate(input, numbers) {
        Ok(set) => writeln!(
            out,
            "{numbers} validate accepted {}",
            handed::digest_of(&set)
        ),
        Err(refusal) => writeln!(out, "{numbers} validate {}", Refused(refusal)),
    }
}
