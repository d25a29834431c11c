// The cases of the program's input, a line each. The module docstring of reference/set_cases.py has the input's grammar.
use crate::{calls, exchanges, sets};
use harness::input::Input;
use std::fmt;
use streams::Output;

// What a line is, by its first number.
#[derive(Clone, Copy)]
enum Line {
    Set,
    Calls,
    Diagonal,
    Height,
}

impl From<u64> for Line {
    fn from(number: u64) -> Line {
        match number {
            1 => Line::Set,
            2 => Line::Calls,
            3 => Line::Diagonal,
            _ => Line::Height,
        }
    }
}

// One line.
pub fn case(out: &mut Output, input: &mut Input<'_>) -> fmt::Result {
    match Line::from(input.number()) {
        Line::Set => sets::case(out, input),
        Line::Calls => calls::case(out, input),
        Line::Diagonal => exchanges::diagonal(out, input),
        Line::Height => exchanges::height(out, input),
    }
}
