// Prints what sets keep: what validation gives, what the entries answer to kept values that are right and wrong, and what exchanges give. The
// module docstring of reference/set_vectors.py says what is printed; the reference prints what it must be.
#![tactic(auto)]

mod calls;
mod cases;
mod exchanges;
mod sets;

use harness::printing;
use std::io;

fn main(rt: HostRuntime) -> io::Result<()> {
    printing::answer(&rt, cases::case)
}
