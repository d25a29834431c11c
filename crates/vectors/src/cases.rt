// The cases of the program's input, a line each. The module docstring of reference/cases.py has the input's grammar.
use crate::{sets_section, states_section};
use harness::input::Input;
use harness::shown::Manner;
use std::fmt;
use std::fmt::Write;
use streams::Output;

// What a line is, by its first number.
#[derive(Clone, Copy)]
enum Line {
    Header,
    Set,
    State(Manner),
}

impl From<u64> for Line {
    fn from(number: u64) -> Line {
        match number {
            0 => Line::Header,
            1 => Line::Set,
            2 => Line::State(Manner::InFull),
            _ => Line::State(Manner::Digest),
        }
    }
}

fn header(out: &mut Output, input: &mut Input<'_>) -> fmt::Result {
    match input.number() {
        0 => writeln!(out, "section sets"),
        _ => writeln!(out, "section states"),
    }
}

// One line.
pub fn case(out: &mut Output, input: &mut Input<'_>) -> fmt::Result {
    match Line::from(input.number()) {
        Line::Header => header(out, input),
        Line::Set => sets_section::case(out, input),
        Line::State(manner) => states_section::case(out, input, manner),
    }
}
