//! Numbers that look random and are the same in each run.
use rand_core::Rng;
use rand_pcg::Pcg32;

/// The generator PCG of 32 bits.
#[derive(Drop)]
pub struct Chance {
    numbers: Pcg32,
}

impl Chance {
    pub fn new(seed: u64) -> Chance {
        Chance {
            numbers: Pcg32::new(seed, 1),
        }
    }

    /// A number below `limit`, or 0.
    pub fn below(&mut self, limit: u32) -> u32 {
        let number = self.numbers.next_u32();
        if limit == 0 { 0 } else { number % limit }
    }

    /// Whether it happens, once in so many times.
    pub fn happens(&mut self, times: u32) -> bool {
        self.below(times) == 0
    }
}
