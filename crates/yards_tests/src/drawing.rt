// Numbers that look random and are the same in each run.
use crate::naive::power;

// A linear congruential generator with Knuth's factor, of which the high bits are used.
#[derive(Drop)]
pub struct Draw {
    pub state: u64,
}

impl Draw {
    // A number below a limit, or 0 if the limit is 0.
    pub fn below(&mut self, limit: u64) -> u64 {
        self.state = self
            .state
            .wrapping_mul(6364136223846793005)
            .wrapping_add(1442695040888963407);
        if limit == 0 {
            return 0;
        }
        (self.state >> 32) % limit
    }

    // A set of n attributes, of which each is in it with so many chances in eight.
    pub fn set(&mut self, n: u32, chances: u64) -> u64 {
        let drawn = (0..n).filter(|_| self.below(8) < chances);
        drawn.fold(0, |s, attribute| s | power(attribute))
    }
}
