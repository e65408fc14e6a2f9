//! Numbers by chance, the same ones for the same seed.
ghost use Rattle.std.specs.Prelude.{◌<◌};

/// A source of numbers: a counter whose bits are mixed (splitmix64).
#[derive(Drop)]
pub struct Chance {
    state: u64,
}

impl Chance {
    /// The source of a seed.
    pub fn new(seed: u64) -> Chance {
        Chance { state: seed }
    }

    /// The next number.
    pub fn next(&mut self) -> u64 {
        self.state = self.state.wrapping_add(0x9e37_79b9_7f4a_7c15);
        let mixed = (self.state ^ (self.state >> 30)).wrapping_mul(0xbf58_476d_1ce4_e5b9);
        let mixed = (mixed ^ (mixed >> 27)).wrapping_mul(0x94d0_49bb_1331_11eb);
        mixed ^ (mixed >> 31)
    }

    /// The next number below this one.
    pub fn below(&mut self, bound: u32) -> u32
        requires { 0 < bound }
        ensures { result < bound }
    {
        (self.next() % u64::from(bound)) as u32
    }

    /// One of these places of a list.
    pub fn place(&mut self, places: usize) -> usize {
        (self.next() % (places as u64).max(1)) as usize
    }

    /// One of these numbers, or 0 of none.
    pub fn one_of(&mut self, numbers: &[u64]) -> u64 {
        let place = self.place(numbers.len());
        numbers.get(place).copied().unwrap_or(0)
    }
}
