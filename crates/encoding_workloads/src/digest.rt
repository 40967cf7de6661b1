//! A digest of results. Outputs are added by vectors, so that the digest takes little of the time.

use std::simd::prelude::*;

/// The length of the vectors that long outputs are added by, in bytes.
const LANES: usize = 32;

/// The length of the vectors that long outputs are added by, in code units.
const UNITS: usize = 16;

/// A digest of the results so far.
#[derive(Drop)]
pub(crate) struct Digest {
    state: u64,
}

impl Digest {
    /// Returns the digest of no results.
    pub(crate) fn new() -> Digest {
        Digest { state: 0 }
    }

    /// Returns the digest as a number.
    pub(crate) fn value(&self) -> u64 {
        self.state
    }

    /// Adds a number.
    #[inline(always)]
    pub(crate) fn number(&mut self, number: usize) {
        self.mix(number as u64);
    }

    /// Adds whether a test passed.
    #[inline(always)]
    pub(crate) fn flag(&mut self, flag: bool) {
        self.mix(u64::from(flag));
    }

    #[inline(always)]
    fn mix(&mut self, word: u64) {
        self.state = (self.state ^ word)
            .wrapping_mul(0x9E37_79B9_7F4A_7C15)
            .rotate_left(29);
    }

    fn mix_lanes(&mut self, lanes: u64x4) {
        for lane in lanes.to_array() {
            self.mix(lane);
        }
    }

    /// Adds an output of bytes: its length, and sums and sums of sums of its words.
    pub(crate) fn bytes(&mut self, bytes: &[u8]) {
        self.number(bytes.len());
        let (words, rest) = bytes.as_chunks::<LANES>();
        let mut sums = u64x4::splat(0);
        let mut totals = u64x4::splat(0);
        for word in words {
            sums = sums + u64x4::from_le_bytes(u8x32::from_slice(word));
            totals = totals + sums;
        }
        self.mix_lanes(sums);
        self.mix_lanes(totals);
        for byte in rest {
            self.mix(u64::from(*byte));
        }
    }

    /// Adds an output of code units in the same way.
    pub(crate) fn units(&mut self, units: &[u16]) {
        self.number(units.len());
        let (words, rest) = units.as_chunks::<UNITS>();
        let mut sums = u64x4::splat(0);
        let mut totals = u64x4::splat(0);
        for word in words {
            sums = sums + u64x4::from_le_bytes(u16x16::from_slice(word).to_le_bytes());
            totals = totals + sums;
        }
        self.mix_lanes(sums);
        self.mix_lanes(totals);
        for unit in rest {
            self.mix(u64::from(*unit));
        }
    }
}
