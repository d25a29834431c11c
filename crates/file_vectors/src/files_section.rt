// Files, and the leaf of each. The module docstring of reference/file_cases.py has the input's grammar.
ghost use Rattle.std.specs.Prelude.{◌≤◌};

use harness::handed::Numbers;
use harness::input::Input;
use harness::lists::List;
use harness::shown::Manner;
use harness::{answers, handed, lists};
use parameters::ParameterSet;
use std::fmt;
use std::fmt::Write;
use streams::Output;

// What is asked of a file: its leaf under a set, in a buffer.
#[derive(Clone, Copy)]
struct Asked {
    numbers: Numbers,
    set: ParameterSet,
    leaf: List<16>,
}

impl Asked {
    fn read(input: &mut Input<'_>) -> Asked {
        let (numbers, set) = handed::read_set(input);
        let leaf = List::of(7, input.count(16));
        Asked { numbers, set, leaf }
    }
}

// A file's line.
fn print(out: &mut Output, asked: &Asked, contents: &[u8]) -> fmt::Result {
    write!(out, "{} bytes {}", asked.numbers, contents.len())?;
    answers::call(out, Manner::InFull, "leaf_of_file", &asked.leaf, |leaf| {
        opening_tree::leaf_of_file(asked.set, contents, leaf)
    })?;
    writeln!(out)
}

// A list, whose numbers modulo 256 are the bytes. How many it has.
fn read_contents(input: &mut Input<'_>, bytes: &mut [u8; 16384]) -> usize
    ensures { result ≤ 16384 }
{
    let mut numbers = [0; 16384];
    let count = lists::read(input, &mut numbers, 0);
    for (byte, number) in bytes.iter_mut().zip(&numbers) {
        *byte = (*number % 256) as u8;
    }
    count
}

// One file.
fn whole(out: &mut Output, input: &mut Input<'_>) -> fmt::Result {
    let asked = Asked::read(input);
    let mut bytes = [0; 16384];
    let count = read_contents(input, &mut bytes);
    print(out, &asked, &bytes[..count])
}

// Files that begin alike: their contents are the first bytes of one, as many as each number from one to another.
fn beginnings(out: &mut Output, input: &mut Input<'_>) -> fmt::Result {
    let asked = Asked::read(input);
    let first = input.number();
    let last = input.number();
    let mut bytes = [0; 16384];
    let longest = read_contents(input, &mut bytes) as u64;
    for length in first..=last {
        let count = length.min(longest) as usize;
        print(out, &asked, &bytes[..count])?;
    }
    Ok(())
}

// What a line is, by its first number.
#[derive(Clone, Copy)]
enum Line {
    Whole,
    Beginnings,
}

impl From<u64> for Line {
    fn from(number: u64) -> Line {
        match number {
            1 => Line::Whole,
            _ => Line::Beginnings,
        }
    }
}

// One line.
pub fn case(out: &mut Output, input: &mut Input<'_>) -> fmt::Result {
    match Line::from(input.number()) {
        Line::Whole => whole(out, input),
        Line::Beginnings => beginnings(out, input),
    }
}
