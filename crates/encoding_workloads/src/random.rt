//! Numbers that look random, the same for the same seed: SplitMix64, by Steele, Lea and Flood.

ghost use Rattle.std.specs.Prelude.{◌<◌, ◌≤◌, ◌-◌, ◌+◌};

/// A generator.
#[derive(Drop)]
pub(crate) struct Random {
    state: u64,
}

impl Random {
    /// Returns the generator of a seed.
    pub(crate) fn seeded(seed: u64) -> Random {
        Random { state: seed }
    }

    /// Returns the next number.
    pub(crate) fn next(&mut self) -> u64 {
        self.state = self.state.wrapping_add(0x9E37_79B9_7F4A_7C15);
        let mixed = (self.state ^ (self.state >> 30)).wrapping_mul(0xBF58_476D_1CE4_E5B9);
        let mixed = (mixed ^ (mixed >> 27)).wrapping_mul(0x94D0_49BB_1331_11EB);
        mixed ^ (mixed >> 31)
    }

    /// Returns a number below the bound.
    pub(crate) fn below(&mut self, bound: usize) -> usize
        requires { 0 < bound }
        ensures { result < bound }
    {
        self.next() as usize % bound
    }

    /// Returns a number from `least` to `most`.
    pub(crate) fn between(&mut self, least: usize, most: usize) -> usize
        requires { least ≤ most }
        ensures { (least ≤ result) × (result ≤ most) }
    {
        let range = most - least;
        if range == usize::MAX {
            return self.next() as usize;
        }
        least + self.below(range + 1)
    }

    /// Returns whether an event happens that has one chance in `chances`.
    pub(crate) fn is_one_in(&mut self, chances: usize) -> bool
        requires { 0 < chances }
    {
        self.below(chances) == 0
    }
}
