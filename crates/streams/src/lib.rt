// Standard input and output, for the programs: input read into a buffer of the caller's, and output through a buffer of its own.
#![tactic(auto)]

ghost use Rattle.std.specs.Prelude.{◌≡◌, ◌<◌, ◌≤◌, length, take, IfOk};
ghost use Rattle.streams.specs.declared.TheConstants.{CAPACITY};
ghost use Rattle.std.specs.Io.KnownBytes.{Consumes, IsAtEnd};

use std::io::{Print, Read, Stdout};
use std::{fmt, io};

// Reads to the end, or until the buffer is full: how many bytes stand at its start. (No heap: std's `read_to_end` fills a `Vec`.)
pub fn read_full<R: Read>(from: &mut R, buffer: &mut [u8]) -> io::Result<usize>
    ensures within { IfOk result (λ n. n ≤ length buffer.new) }
    ensures bytes { IfOk result (λ n. Consumes (R.remaining from.old) (R.remaining from.new) (take n buffer.new)) }
    ensures end { IfOk result (λ n. n < length buffer.new → IsAtEnd (R.remaining from.new)) }
{
    let mut done = 0;
    while done < buffer.len() {
        let count = from.read(&mut buffer[done..])?;
        if count == 0 {
            return Ok(done);
        }
        done += count;
    }
    Ok(done)
}

const CAPACITY: usize = 4096;

// Standard output, with a fixed buffer before it (no heap: std's `BufWriter` allocates its own). After a write that failed nothing more is
// written, and `flush` gives the error.
#[derive(Drop)]
pub struct Output {
    stdout: Stdout,
    waiting: [u8; CAPACITY],
    count: usize,
    failed: Option<io::Error>,
    ghost within: { count ≤ CAPACITY },
}

impl Output {
    pub fn new(stdout: Stdout) -> Output {
        Output {
            stdout,
            waiting: [0; CAPACITY],
            count: 0,
            failed: None,
        }
    }

    // Bytes, which need be no text. It cannot fail: what a write gives is kept for `flush`.
    pub fn write(&mut self, bytes: &[u8]) {
        for byte in bytes {
            self.push(*byte);
        }
    }

    // A number's digits: those before the last, and the last.
    pub fn write_decimal(&mut self, number: u64) {
        if number >= 10 {
            self.write_decimal(number / 10);
        }
        self.push(b'0' + (number % 10) as u8);
    }

    // Writes what waits. The error is that of the first write that failed.
    pub fn flush(&mut self) -> io::Result<()> {
        self.write_waiting();
        match self.failed {
            Some(error) => Err(error),
            None => Ok(()),
        }
    }

    fn push(&mut self, byte: u8) {
        if self.count == CAPACITY {
            self.write_waiting();
        }
        self.waiting[self.count] = byte;
        self.count += 1;
    }

    fn write_waiting(&mut self)
        ensures { self.new.count ≡ 0 }
    {
        let count = self.count;
        self.count = 0;
        if self.failed.is_none() {
            self.failed = self.stdout.write_all(&self.waiting[..count]).err();
        }
    }
}

// Text is written by `write!`, which gives an error once a write has failed.
impl fmt::Write for Output {
    fn write_str(&mut self, text: &str) -> fmt::Result {
        self.write(text.as_bytes());
        if self.failed.is_some() {
            return Err(fmt::Error);
        }
        Ok(())
    }
}
