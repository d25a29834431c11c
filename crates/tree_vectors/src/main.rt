// Prints what the entries of trees answer on the worked case, on refused calls, on made collisions and on seeded numbers. The module
// docstring of reference/tree_vectors.py says what is printed; the reference prints what it must be.
#![tactic(auto)]

mod cases;
mod extractions_section;
mod trees_section;

use harness::printing;
use std::io;

fn main(rt: HostRuntime) -> io::Result<()> {
    printing::answer(&rt, cases::case)
}
