//! Numbers by chance, the same for each seed.
ghost use Rattle.std.specs.Prelude.{◌<◌};

use rand_pcg::Pcg32;
use rand_pcg::rand_core::Rng;

#[derive(Drop)]
pub struct Chance {
    source: Pcg32,
}

impl Chance {
    // The source of a seed.
    pub fn new(seed: u64) -> Chance {
        Chance {
            source: Pcg32::new(seed, 54),
        }
    }

    // The next number.
    pub fn next(&mut self) -> u64 {
        self.source.next_u64()
    }

    // The next number below this one.
    pub fn below(&mut self, bound: u32) -> u32
        requires { 0 < bound }
        ensures { result < bound }
    {
        self.source.next_u32() % bound
    }

    // One of so many places of a list.
    pub fn place(&mut self, places: usize) -> usize {
        (self.next() % (places as u64).max(1)) as usize
    }

    // One of these numbers, or 0 of none.
    pub fn one_of(&mut self, numbers: &[u64]) -> u64 {
        let place = self.place(numbers.len());
        numbers.get(place).copied().unwrap_or(0)
    }
}
