// Prints what lists of replacements and pushes on built trees answer and leave. The module docstring of reference/history_vectors.py
// says what is printed; the reference prints what it must be.
#![tactic(auto)]

mod calls;
mod places;
mod trees_section;

use harness::printing;
use std::io;

fn main(rt: HostRuntime) -> io::Result<()> {
    printing::answer(&rt, trees_section::case)
}
