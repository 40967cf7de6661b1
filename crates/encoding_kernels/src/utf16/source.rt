//! Sources of code units: an array of them, and the bytes of UTF-16LE or UTF-16BE. A conversion that is generic over
//! its source reads either without a copy.

ghost use Rattle.std.specs.Prelude.{◌≡◌, ◌+◌, ◌-◌, ◌<◌, ◌≤◌, ℕ, List, length, take, drop, slice_index};
ghost use Rattle.encoding_definitions.specs.Utf16.{AreCodeUnits};

use super::bytes::{
    count_units, eight_units, first_sixteen, first_units, joined_eights, sixteen_units, skip_units,
    unit_at,
};
use crate::simd::width::{HALF_STRIDE, STRIDE};
use std::simd::prelude::*;

/// The code units that a conversion reads.
pub trait CodeUnits: Copy {
    ghost units: { Self → List ℕ };

    fn count(self) -> usize
        ensures count { result ≡ length (units self) }
        ensures code_units { AreCodeUnits (units self) };

    fn unit_at(self, at: usize) -> u16
        requires { at < length (units self) }
        ensures { result ≡ slice_index (units self) at };

    fn sixteen(self, at: usize) -> u16x16
        requires { at + 16 ≤ length (units self) }
        ensures { result ≡ take 16 (drop at (units self)) };

    fn eight(self, at: usize) -> u16x8
        requires { at + 8 ≤ length (units self) }
        ensures { result ≡ take 8 (drop at (units self)) };

    fn first_sixteen(self) -> u16x16
        ensures { (length result ≡ 16)
            × (take (length (take 16 (units self))) result ≡ take 16 (units self)) };

    fn skip(self, at: usize) -> Self
        requires { at ≤ length (units self) }
        ensures { units result ≡ take (length (units self) - at) (drop at (units self)) };

    fn first(self, count: usize) -> Self
        requires { count ≤ length (units self) }
        ensures { units result ≡ take count (units self) };
}

#[inline(always)]
fn count_of(src: &[u16]) -> usize
    ensures count { result ≡ length src.now }
    ensures code_units { AreCodeUnits src.now }
{
    src.len()
}

/// An array of code units.
#[derive(Clone, Copy, Drop)]
pub struct Units<'a> {
    pub src: &'a [u16],
}

impl<'a> CodeUnits for Units<'a> {
    ghost units = { λ s. s.src.now };

    #[inline(always)]
    fn count(self) -> usize {
        count_of(self.src)
    }

    #[inline(always)]
    fn unit_at(self, at: usize) -> u16 {
        self.src[at]
    }

    #[inline(always)]
    fn sixteen(self, at: usize) -> u16x16 {
        u16x16::from_slice(&self.src[at..])
    }

    #[inline(always)]
    fn eight(self, at: usize) -> u16x8 {
        u16x8::from_slice(&self.src[at..])
    }

    #[inline(always)]
    fn first_sixteen(self) -> u16x16 {
        let src = self.src;
        let count = count_of(src);
        if count >= STRIDE {
            return self.sixteen(0);
        }
        if count >= HALF_STRIDE {
            return joined_eights(self.eight(0), self.eight(count - HALF_STRIDE), count);
        }
        let mut units = [0; STRIDE];
        units[..src.len()].copy_from_slice(src);
        u16x16::from_array(units)
    }

    #[inline(always)]
    fn skip(self, at: usize) -> Units<'a> {
        Units {
            src: &self.src[at..],
        }
    }

    #[inline(always)]
    fn first(self, count: usize) -> Units<'a> {
        Units {
            src: &self.src[..count],
        }
    }
}

/// The bytes of code units, two for each. `BIG` says that the more significant one comes first.
#[derive(Clone, Copy, Drop)]
pub struct UnitBytes<'a, const BIG: bool> {
    pub pairs: &'a [[u8; 2]],
}

impl<'a, const BIG: bool> CodeUnits for UnitBytes<'a, BIG> {
    ghost use Rattle.encoding_kernels.specs.UnitBytes.{bytes_in, units_of};

    ghost units = { λ s. units_of BIG (bytes_in s.pairs.now) };

    #[inline(always)]
    fn count(self) -> usize {
        count_units(BIG, self.pairs)
    }

    #[inline(always)]
    fn unit_at(self, at: usize) -> u16 {
        unit_at(BIG, self.pairs.as_flattened(), at)
    }

    #[inline(always)]
    fn sixteen(self, at: usize) -> u16x16 {
        sixteen_units(BIG, self.pairs.as_flattened(), at)
    }

    #[inline(always)]
    fn eight(self, at: usize) -> u16x8 {
        eight_units(BIG, self.pairs.as_flattened(), at)
    }

    #[inline(always)]
    fn first_sixteen(self) -> u16x16 {
        first_sixteen(BIG, self.pairs.as_flattened())
    }

    #[inline(always)]
    fn skip(self, at: usize) -> UnitBytes<'a, BIG> {
        UnitBytes {
            pairs: skip_units(BIG, self.pairs, at),
        }
    }

    #[inline(always)]
    fn first(self, count: usize) -> UnitBytes<'a, BIG> {
        UnitBytes {
            pairs: first_units(BIG, self.pairs, count),
        }
    }
}
