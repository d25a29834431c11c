// The root program: reads a set and leaves from standard input, and writes the root or the refusal to standard output.
#![tactic(auto)]

use std::io;

fn main(rt: HostRuntime) -> io::Result<()> {
    // The most that is accepted is 65,536 bytes: one more tells that there are too many.
    let mut input = [0u8; 65537];
    let length = streams::read_full(&mut rt.stdin(), &mut input)?;
    let mut output = [0u8; 128];
    let written = program::root_text(&input[..length], &mut output);
    rt.write_all(&output[..written])
}
