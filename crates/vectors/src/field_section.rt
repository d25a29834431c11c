// The section `field`.
use harness::answers::Refused;
use harness::generator::Generator;
use opening_tree::{Refusal, difference, inverse, power, product, seventh_root, sum};
use std::fmt;
use std::fmt::Write;
use streams::Output;

const SEEDED_LINES: u64 = 2000;

const UNREDUCED_LINES: u64 = 3000;

// the high 32 bits
const HIGH_HALF: u64 = 0xffff_ffff_0000_0000;

// A call of an entry of the field.
#[derive(Clone, Copy)]
enum Call {
    Sum(u64, u64),
    Difference(u64, u64),
    Product(u64, u64),
    Power(u64, u64),
    Inverse(u64),
    SeventhRoot(u64),
}

impl fmt::Display for Call {
    fn fmt<W: fmt::Write>(&self, f: &mut fmt::Formatter<W>) -> fmt::Result {
        match *self {
            Call::Sum(a, b) => write!(f, "sum {a} {b}"),
            Call::Difference(a, b) => write!(f, "difference {a} {b}"),
            Call::Product(a, b) => write!(f, "product {a} {b}"),
            Call::Power(a, e) => write!(f, "power {a} {e}"),
            Call::Inverse(a) => write!(f, "inverse {a}"),
            Call::SeventhRoot(a) => write!(f, "seventh_root {a}"),
        }
    }
}

impl Call {
    fn answer(self) -> Result<u64, Refusal> {
        match self {
            Call::Sum(a, b) => sum(a, b),
            Call::Difference(a, b) => difference(a, b),
            Call::Product(a, b) => product(a, b),
            Call::Power(a, e) => power(a, e),
            Call::Inverse(a) => inverse(a),
            Call::SeventhRoot(a) => seventh_root(a),
        }
    }
}

// A line with the operands.
fn case_line(out: &mut Output, call: Call) -> fmt::Result {
    match call.answer() {
        Ok(word) => writeln!(out, "{call} = {word}"),
        Err(refusal) => writeln!(out, "{call} {}", Refused(refusal)),
    }
}

// A line with the answer alone.
fn answer_line(out: &mut Output, call: Call) -> fmt::Result {
    match call.answer() {
        Ok(word) => writeln!(out, "{word}"),
        Err(refusal) => writeln!(out, "{}", Refused(refusal)),
    }
}

fn worked(out: &mut Output) -> fmt::Result {
    let p = fields::order();
    let calls = [
        Call::Product(p - 1, p - 1),
        Call::Product(1 << 32, 1 << 32),
        Call::Product(1 << 48, 1 << 48),
        Call::Product(p, p),
        Call::Product(p + 1, p - 1),
        Call::Product(u64::MAX, u64::MAX),
        Call::Difference(0, 1),
        Call::Inverse(2),
        Call::SeventhRoot(128),
        Call::Sum(p, 0),
        Call::Sum(p - 1, 0),
        Call::Power(0, 0),
        Call::Power(p, 0),
        Call::Power(p, 1),
        Call::Power(p + 2, 7),
    ];
    for call in calls {
        case_line(out, call)?;
    }
    Ok(())
}

// The numbers at the edges of halves, of the words and of 64 bits.
fn edges() -> [u64; 12] {
    let p = fields::order();
    [
        0,
        1,
        (1 << 32) - 1,
        1 << 32,
        (1 << 32) + 1,
        1 << 63,
        p.wrapping_add(p),
        p - 2,
        p - 1,
        p,
        p + 1,
        u64::MAX,
    ]
}

fn edges_of_one<F: Fn(u64) -> Call>(out: &mut Output, call: F) -> fmt::Result
    requires { F.IsAlwaysCallable call }
{
    for a in edges() {
        case_line(out, call(a))?;
    }
    Ok(())
}

fn edges_of_two<F: Fn(u64, u64) -> Call>(out: &mut Output, call: F) -> fmt::Result
    requires { F.IsAlwaysCallable call }
{
    for a in edges() {
        edges_of_one(out, |b| call(a, b))?;
    }
    Ok(())
}

// A drawn number as an operand: one in sixteen has its high bits set, and mostly is no word.
fn seeded(drawn: u64) -> u64 {
    if drawn % 16 == 0 {
        drawn | HIGH_HALF
    } else {
        drawn
    }
}

// A drawn number as an operand that may be any: every other one has its high bits set.
fn unreduced(drawn: u64) -> u64 {
    if drawn % 2 == 0 {
        drawn | HIGH_HALF
    } else {
        drawn
    }
}

fn drawn_of_one<F: Fn(u64) -> Call>(out: &mut Output, name: &str, seed: u64, call: F) -> fmt::Result
    requires { F.IsAlwaysCallable call }
{
    writeln!(out, "{name} seeded {SEEDED_LINES}")?;
    let mut generator = Generator::new(seed);
    for _ in 0..SEEDED_LINES {
        answer_line(out, call(generator.draw()))?;
    }
    Ok(())
}

fn lines_of_two<F: Fn(u64, u64) -> Call>(
    out: &mut Output,
    seed: u64,
    lines: u64,
    call: F,
) -> fmt::Result
    requires { F.IsAlwaysCallable call }
{
    let mut generator = Generator::new(seed);
    for _ in 0..lines {
        let a = generator.draw();
        let b = generator.draw();
        answer_line(out, call(a, b))?;
    }
    Ok(())
}

fn drawn_of_two<F: Fn(u64, u64) -> Call>(
    out: &mut Output,
    name: &str,
    seed: u64,
    call: F,
) -> fmt::Result
    requires { F.IsAlwaysCallable call }
{
    writeln!(out, "{name} seeded {SEEDED_LINES}")?;
    lines_of_two(out, seed, SEEDED_LINES, call)
}

// The entries that take any numbers, on many that are no words.
fn any_of_two<F: Fn(u64, u64) -> Call>(
    out: &mut Output,
    name: &str,
    seed: u64,
    call: F,
) -> fmt::Result
    requires { F.IsAlwaysCallable call }
{
    writeln!(out, "{name} unreduced {UNREDUCED_LINES}")?;
    lines_of_two(out, seed, UNREDUCED_LINES, call)
}

// Each entry on drawn numbers. An exponent is as it is drawn.
fn drawn(out: &mut Output) -> fmt::Result {
    drawn_of_two(out, "sum", 0, |a, b| Call::Sum(seeded(a), seeded(b)))?;
    drawn_of_two(
        out,
        "difference",
        1,
        |a, b| Call::Difference(seeded(a), seeded(b)),
    )?;
    drawn_of_two(
        out,
        "product",
        2,
        |a, b| Call::Product(seeded(a), seeded(b)),
    )?;
    drawn_of_two(out, "power", 3, |a, e| Call::Power(seeded(a), e))?;
    drawn_of_one(out, "inverse", 4, |a| Call::Inverse(seeded(a)))?;
    drawn_of_one(out, "seventh_root", 5, |a| Call::SeventhRoot(seeded(a)))?;
    any_of_two(
        out,
        "product",
        6,
        |a, b| Call::Product(unreduced(a), unreduced(b)),
    )?;
    any_of_two(out, "power", 7, |a, e| Call::Power(unreduced(a), e))
}

pub fn print(out: &mut Output) -> fmt::Result {
    writeln!(out, "section field")?;
    worked(out)?;
    edges_of_two(out, Call::Sum)?;
    edges_of_two(out, Call::Difference)?;
    edges_of_two(out, Call::Product)?;
    edges_of_two(out, Call::Power)?;
    edges_of_one(out, Call::Inverse)?;
    edges_of_one(out, Call::SeventhRoot)?;
    drawn(out)
}
