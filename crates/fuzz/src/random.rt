//! Numbers that look random, the same for each seed: SplitMix64 (Steele, Lea and Flood, "Fast
//! splittable pseudorandom number generators", 2014).

ghost use Rattle.std.specs.Prelude.{◌<◌, ◌⊎◌, ◌≡◌};

/// A source of numbers.
#[derive(Debug, Drop)]
pub struct Random {
    state: u64,
}

impl Random {
    /// The source of this seed.
    pub fn new(seed: u64) -> Random {
        Random { state: seed }
    }

    /// The next number.
    pub fn number(&mut self) -> u64 {
        self.state = self.state.wrapping_add(0x9e37_79b9_7f4a_7c15);
        let mixed = (self.state ^ (self.state >> 30)).wrapping_mul(0xbf58_476d_1ce4_e5b9);
        let mixed = (mixed ^ (mixed >> 27)).wrapping_mul(0x94d0_49bb_1331_11eb);
        mixed ^ (mixed >> 31)
    }

    /// A number below the bound, and 0 where that is 0.
    pub fn below(&mut self, bound: usize) -> usize
        ensures { (result < bound) ⊎ ((bound ≡ 0) × (result ≡ 0)) }
    {
        if bound == 0 {
            return 0;
        }
        let number = (self.number() >> 33) as usize;
        number % bound
    }

    /// A byte.
    pub fn byte(&mut self) -> u8 {
        let [byte, ..] = self.number().to_le_bytes();
        byte
    }

    /// Whether something that happens once in so many times happens.
    pub fn once_in(&mut self, times: usize) -> bool {
        self.below(times) == 0
    }

    /// One of the values; the last where there is none.
    pub fn one_of<T: Copy + Drop>(&mut self, values: &[T], other: T) -> T {
        let index = self.below(values.len());
        values.get(index).copied().unwrap_or(other)
    }
}
