// The numbers of a program's input, in decimal. One byte that is no digit stands after each number.
ghost use Rattle.std.specs.Prelude.{◌≤◌};

// What is left to read.
#[derive(Drop)]
pub struct Input<'a> {
    rest: &'a [u8],
}

impl<'a> Input<'a> {
    pub fn new(bytes: &'a [u8]) -> Input<'a> {
        Input { rest: bytes }
    }

    // The next number, modulo 2^64: 0 where there is none.
    pub fn number(&mut self) -> u64 {
        self.digits().iter().fold(0u64, |number, digit| {
            number.wrapping_mul(10).wrapping_add(u64::from(*digit % 16))
        })
    }

    // The next number, or `most` where that is less.
    pub fn count(&mut self, most: usize) -> usize
        ensures { result ≤ most }
    {
        self.number().min(most as u64) as usize
    }

    // The digits before the next byte that is none, which is passed over.
    fn digits(&mut self) -> &'a [u8] {
        let rest = self.rest;
        match rest.iter().position(|byte| !byte.is_ascii_digit()) {
            Some(end) => {
                self.rest = &rest[end + 1..];
                &rest[..end]
            }
            None => {
                self.rest = &[];
                rest
            }
        }
    }
}
