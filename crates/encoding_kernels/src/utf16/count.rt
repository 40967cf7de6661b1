//! The number of characters and unpaired surrogates in UTF-16, without a test of whether it is valid.
ghost use Rattle.std.specs.Prelude.{◌≡◌, ◌-◌, ◌+◌, ◌<◌, ◌≤◌, List, length, slice_index};
ghost use Rattle.encoding_definitions.specs.Utf16.{Part16, ArePartsOf16};
ghost use Rattle.encoding_kernels.specs.Scans.{HasLanes};
ghost use Rattle.encoding_kernels.specs.Lengths.{sum_over_suffixes, is_surrogate_pair, fewer};
ghost use Rattle.encoding_kernels.specs.Counts.{begins_pair, bool_few};
ghost use mir.Val.{bool_byte};

use crate::simd::scan::skip;
use crate::simd::sum::{LANES, Terms, sum_from};
use crate::simd::units::UnitsBelow;
use crate::simd::width::{HALF_UNIT_BLOCK, STRIDE, UNIT_STRIDE};
use crate::tuning::UTF16_LENGTH_SPAN;
use crate::utf16::length::unit_at;
use std::simd::Simd;
use std::simd::prelude::*;

/// The least surrogate.
const FIRST_SURROGATE: u16 = 0xD800;

/// Without a branch.
#[inline(always)]
fn is_pair(unit: u16, next: u16) -> bool
    ensures { result ≡ is_surrogate_pair unit next }
{
    (unit & 0xFC00 == 0xD800) & (next & 0xFC00 == 0xDC00)
}

#[inline(always)]
fn pair_lanes<const N: usize>(units: Simd<u16, N>, next: Simd<u16, N>) -> Simd<u8, N>
    ensures { HasLanes N result
        (λ k. bool_byte
        (is_surrogate_pair (slice_index units.entry k) (slice_index next.entry k))) }
{
    let high = (units & Simd::splat(0xFC00)).simd_eq(Simd::splat(0xD800));
    let low = (next & Simd::splat(0xFC00)).simd_eq(Simd::splat(0xDC00));
    let one = Simd::<u16, N>::splat(1);
    let zero = Simd::<u16, N>::splat(0);
    (high & low).select(one, zero).cast::<u8>()
}

/// A term for each code unit: 1 if a surrogate pair begins there, else 0.
#[derive(Drop)]
struct Pairs<'a> {
    units: &'a [u16],
}

impl<'a, const N: usize> Terms<N> for Pairs<'a> {
    ghost text = { λ s. s.units.now };

    ghost term = { λ _. begins_pair };

    ghost whole = { λ s. length s.units.now - 1 };

    #[inline(always)]
    fn len(&self) -> usize {
        self.units.len()
    }

    #[inline(always)]
    fn end(&self) -> usize {
        self.units.len().saturating_sub(1)
    }

    #[tactic(auto, using(crate::proofs::VectorLemmas::HasLanes_same, crate::proofs::SumLemmas::loaded))]
    #[inline(always)]
    fn terms(&self, at: usize) -> Simd<u8, N> {
        let units = self.units;
        pair_lanes(
            Simd::<u16, N>::from_slice(&units[at..]),
            Simd::<u16, N>::from_slice(&units[at + 1..]),
        )
    }

    #[tactic(auto, using(crate::proofs::CountLemmas::term_pair))]
    #[inline(always)]
    fn term_at(&self, at: usize) -> usize {
        let units = self.units;
        usize::from(is_pair(units[at], unit_at(units, at + 1)))
    }

    #[tactic(auto, using(crate::proofs::CountLemmas::skipped_pairs))]
    #[inline(always)]
    fn skip(&self, at: usize, end: usize) -> usize {
        let units = self.units;
        let single = UnitsBelow {
            units,
            bound: FIRST_SURROGATE,
        };
        skip::<STRIDE, HALF_UNIT_BLOCK, _>(&single, at, end)
    }

    ghost inside = { λ s. fewer (length s.units.now) 1 };

    ghost few = { λ _ xs. bool_few (is_surrogate_pair (slice_index xs 0) (slice_index xs 1)) };
}

pub fn parts_of_units(units: &[u16]) -> usize
    ensures { (parts : List Part16) × ArePartsOf16 units.now parts × (result ≡ length parts) }
{
    let terms = Pairs { units };
    units.len() - sum_from::<LANES, UNIT_STRIDE, UTF16_LENGTH_SPAN, _, _>(&terms, &terms, 0)
}
