// A program's run: what it reads and what it writes.
use crate::input::Input;
use std::{fmt, io};
use streams::Output;

// Writes a text to standard output.
pub fn print<F: FnOnce(&mut Output) -> fmt::Result>(rt: &HostRuntime, text: F) -> io::Result<()>
    requires { F.IsAlwaysCallable text }
{
    let mut out = Output::new(rt.stdout());
    // It fails only where a write failed, and of that `flush` gives the error.
    let _ = text(&mut out);
    out.flush()
}

// The cases, in order.
fn each<F: Fn(&mut Output, &mut Input<'_>) -> fmt::Result>(
    out: &mut Output,
    input: &mut Input<'_>,
    case: F,
) -> fmt::Result
    requires { F.IsAlwaysCallable case }
{
    for _ in 0..input.number() {
        case(out, input)?;
    }
    Ok(())
}

// Writes what is answered to the cases on standard input, whose first number says how many they are.
pub fn answer<F: Fn(&mut Output, &mut Input<'_>) -> fmt::Result>(
    rt: &HostRuntime,
    case: F,
) -> io::Result<()>
    requires { F.IsAlwaysCallable case }
{
    let mut buffer = [0u8; 65536];
    let count = streams::read_full(&mut rt.stdin(), &mut buffer)?;
    let mut input = Input::new(&buffer[..count]);
    print(rt, |out| each(out, &mut input, case))
}
