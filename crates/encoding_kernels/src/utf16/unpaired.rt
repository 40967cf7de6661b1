//! The number of unpaired surrogates in UTF-16. A surrogate is unpaired if the unit next to it isn't its other half.
//! Two adjacent units have at most one such fault, so faults are counted between units.
ghost use Rattle.std.specs.Prelude.{◌≡◌, ◌-◌, ◌+◌, ◌<◌, ◌≤◌, length, slice_index};
ghost use Rattle.encoding_definitions.specs.Surrogates.{HasUnpaired};
ghost use Rattle.encoding_kernels.specs.Scans.{HasLanes};
ghost use Rattle.encoding_kernels.specs.Lengths.{sum_over_suffixes, fewer};
ghost use Rattle.encoding_kernels.specs.Counts.{begins_fault, bool_few};
ghost use Rattle.encoding_kernels.specs.Neighbors.{pair_fault};
ghost use mir.Val.{bool_byte};

use crate::scalar::is_low_surrogate;
use crate::simd::scan::skip;
use crate::simd::sum::{LANES, Terms, sum_from};
use crate::simd::units::UnitsBelow;
use crate::simd::width::{HALF_UNIT_BLOCK, STRIDE, UNIT_STRIDE};
use crate::tuning::UTF16_LENGTH_SPAN;
use crate::utf16::length::unit_at;
use std::simd::Simd;
use std::simd::prelude::*;

/// The least surrogate.
const FIRST_SURROGATE: u16 = 0xD800;

/// Without a branch.
#[inline(always)]
fn is_fault(unit: u16, before: u16) -> bool
    ensures { result ≡ pair_fault unit before }
{
    (unit & 0xFC00 == 0xDC00) != (before & 0xFC00 == 0xD800)
}

#[inline(always)]
fn fault_lanes<const N: usize>(units: Simd<u16, N>, before: Simd<u16, N>) -> Simd<u8, N>
    ensures { HasLanes N result
        (λ k. bool_byte (pair_fault (slice_index units.entry k) (slice_index before.entry k))) }
{
    let low = (units & Simd::splat(0xFC00)).simd_eq(Simd::splat(0xDC00));
    let high = (before & Simd::splat(0xFC00)).simd_eq(Simd::splat(0xD800));
    let one = Simd::<u16, N>::splat(1);
    let zero = Simd::<u16, N>::splat(0);
    (low ^ high).select(one, zero).cast::<u8>()
}

/// A term for each code unit: 1 if there is a fault between it and the next one, else 0.
#[derive(Drop)]
struct Faults<'a> {
    units: &'a [u16],
}

impl<'a, const N: usize> Terms<N> for Faults<'a> {
    ghost text = { λ s. s.units.now };

    ghost term = { λ _. begins_fault };

    ghost whole = { λ s. length s.units.now - 1 };

    #[inline(always)]
    fn len(&self) -> usize {
        self.units.len()
    }

    #[inline(always)]
    fn end(&self) -> usize {
        self.units.len().saturating_sub(1)
    }

    #[tactic(auto, using(crate::proofs::VectorLemmas::HasLanes_same, crate::proofs::SumLemmas::loaded))]
    #[inline(always)]
    fn terms(&self, at: usize) -> Simd<u8, N> {
        let units = self.units;
        fault_lanes(
            Simd::<u16, N>::from_slice(&units[at + 1..]),
            Simd::<u16, N>::from_slice(&units[at..]),
        )
    }

    #[tactic(auto, using(crate::proofs::UnpairedLemmas::term_fault))]
    #[inline(always)]
    fn term_at(&self, at: usize) -> usize {
        let units = self.units;
        usize::from(is_fault(unit_at(units, at + 1), units[at]))
    }

    // a low surrogate may follow the last unit that is skipped over
    #[tactic(auto, using(crate::proofs::UnpairedLemmas::skipped_faults))]
    #[inline(always)]
    fn skip(&self, at: usize, end: usize) -> usize {
        let units = self.units;
        let single = UnitsBelow {
            units,
            bound: FIRST_SURROGATE,
        };
        let place = skip::<STRIDE, HALF_UNIT_BLOCK, _>(&single, at, end);
        if at < place { place - 1 } else { at }
    }

    ghost inside = { λ s. fewer (length s.units.now) 1 };

    ghost few = { λ _ xs. bool_few (pair_fault (slice_index xs 1) (slice_index xs 0)) };
}

pub fn unpaired_of_units(units: &[u16]) -> usize
    ensures { HasUnpaired units.now result }
{
    let terms = Faults { units };
    let first = usize::from(is_low_surrogate(unit_at(units, 0)));
    first + sum_from::<LANES, UNIT_STRIDE, UTF16_LENGTH_SPAN, _, _>(&terms, &terms, 0)
}
