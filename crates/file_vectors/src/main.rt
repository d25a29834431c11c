// Prints what the leaf of a file is, for files of many lengths under many sets. The module docstring of reference/file_vectors.py says
// what is printed; the reference prints what it must be.
#![tactic(auto)]

mod files_section;

use harness::printing;
use std::io;

fn main(rt: HostRuntime) -> io::Result<()> {
    printing::answer(&rt, files_section::case)
}
