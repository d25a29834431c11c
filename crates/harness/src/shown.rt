// How numbers are printed, each after a space.
use crate::lists;
use std::fmt;

// The numbers of a list.
#[derive(Clone, Copy)]
pub struct Spaced<'a>(pub &'a [u64]);

impl fmt::Display for Spaced<'_> {
    fn fmt<W: fmt::Write>(&self, f: &mut fmt::Formatter<W>) -> fmt::Result {
        for number in self.0 {
            write!(f, " {number}")?;
        }
        Ok(())
    }
}

// How much of a buffer is printed: its numbers, or their digest.
#[derive(Clone, Copy)]
pub enum Manner {
    InFull,
    Digest,
}

impl Manner {
    pub fn show<'a>(self, buffer: &'a [u64]) -> Shown<'a> {
        Shown {
            manner: self,
            buffer,
        }
    }
}

// A buffer, and the manner in which it is printed.
#[derive(Clone, Copy)]
pub struct Shown<'a> {
    manner: Manner,
    buffer: &'a [u64],
}

impl fmt::Display for Shown<'_> {
    fn fmt<W: fmt::Write>(&self, f: &mut fmt::Formatter<W>) -> fmt::Result {
        match self.manner {
            Manner::InFull => write!(f, " ={}", Spaced(self.buffer)),
            Manner::Digest => write!(f, " {}", lists::digest(self.buffer)),
        }
    }
}
