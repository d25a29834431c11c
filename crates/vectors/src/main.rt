// Prints what the entries answer on the worked cases, on the edges and on seeded numbers. The module docstring of
// reference/vectors.py says what is printed; the reference prints what it must be.
#![tactic(auto)]

mod cases;
mod field_section;
mod sets_section;
mod states_section;

use harness::printing;
use std::io;

fn main(rt: HostRuntime) -> io::Result<()> {
    printing::print(&rt, field_section::print)?;
    printing::answer(&rt, cases::case)
}
