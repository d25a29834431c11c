// The cases of the program's input, a line each. The module docstring of reference/tree_cases.py has the input's grammar.
use crate::{extractions_section, trees_section};
use harness::input::Input;
use harness::shown::Manner;
use harness::{calls, replacements};
use std::fmt;
use std::fmt::Write;
use streams::Output;

// What a line is, by its first number.
#[derive(Clone, Copy)]
enum Line {
    Header,
    Tree(Manner),
    Calls,
    Replacements,
    Extraction,
}

impl From<u64> for Line {
    fn from(number: u64) -> Line {
        match number {
            0 => Line::Header,
            1 => Line::Tree(Manner::InFull),
            2 => Line::Tree(Manner::Digest),
            3 => Line::Calls,
            4 => Line::Replacements,
            _ => Line::Extraction,
        }
    }
}

fn header(out: &mut Output, input: &mut Input<'_>) -> fmt::Result {
    match input.number() {
        0 => writeln!(out, "section trees"),
        1 => writeln!(out, "section replacements"),
        _ => writeln!(out, "section extractions"),
    }
}

// One line.
pub fn case(out: &mut Output, input: &mut Input<'_>) -> fmt::Result {
    match Line::from(input.number()) {
        Line::Header => header(out, input),
        Line::Tree(manner) => trees_section::case(out, input, manner),
        Line::Calls => calls::case(out, input),
        Line::Replacements => replacements::case(out, input),
        Line::Extraction => extractions_section::case(out, input),
    }
}
