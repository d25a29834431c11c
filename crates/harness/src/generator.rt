// The generator of 64-bit numbers.

// where seed 0 starts
const START: u64 = 88172645463325252;

#[derive(Clone, Copy)]
pub struct Generator {
    last: u64,
}

impl Generator {
    pub fn new(seed: u64) -> Generator {
        Generator {
            last: START.wrapping_add(seed),
        }
    }

    // The next number.
    pub fn draw(&mut self) -> u64 {
        self.last ^= self.last << 13;
        self.last ^= self.last >> 7;
        self.last ^= self.last << 17;
        self.last
    }
}

// All the numbers, without an end.
impl Iterator for Generator {
    type Item = u64;

    fn next(&mut self) -> Option<u64> {
        Some(self.draw())
    }
}
