//! The length of UTF-16 in UTF-8, without a test of whether it is well-formed.
ghost use Rattle.std.specs.Prelude.{◌≡◌, ◌-◌, ℕ, ◌+◌, ◌<◌, ◌≤◌, List, length, slice_index};
ghost use Rattle.encoding_definitions.specs.Utf16.{IsUtf8OfUnits};
ghost use Rattle.encoding_kernels.specs.Scans.{BelowUpTo, HasLanes};
ghost use Rattle.encoding_kernels.specs.Lengths.{extra_bytes, extra_bytes_by, extra_bytes_few, fewer};

use crate::simd::scan::{pass_short, skip};
use crate::simd::sum::{LANES, Terms, sum_from};
use crate::simd::units::UnitsBelow;
use crate::simd::width::{BASIC_LATIN_END, HALF_UNIT_BLOCK, STRIDE, UNIT_BLOCK, UNIT_STRIDE};
use crate::tuning::UTF16_LENGTH_SPAN;
use std::simd::Simd;
use std::simd::prelude::*;

/// Without a branch. The first unit of a pair has none, and the second two.
#[inline(always)]
fn bytes_beyond(unit: u16, next: u16) -> usize
    ensures { result ≡ extra_bytes_by unit next }
{
    let single = !((unit & 0xFC00 == 0xD800) & (next & 0xFC00 == 0xDC00));
    usize::from(single & (unit >= 0x80)) + usize::from(single & (unit >= 0x800))
}

#[inline(always)]
fn beyond_lanes<const N: usize>(units: Simd<u16, N>, next: Simd<u16, N>) -> Simd<u8, N>
    ensures { HasLanes N result
        (λ k. extra_bytes_by (slice_index units.entry k) (slice_index next.entry k)) }
{
    let high = (units & Simd::splat(0xFC00)).simd_eq(Simd::splat(0xD800));
    let low = (next & Simd::splat(0xFC00)).simd_eq(Simd::splat(0xDC00));
    let one = Simd::<u16, N>::splat(1);
    let zero = Simd::<u16, N>::splat(0);
    let second = units.simd_ge(Simd::splat(0x80)).select(one, zero);
    let third = units.simd_ge(Simd::splat(0x800)).select(one, zero);
    (high & low).select(zero, second + third).cast::<u8>()
}

/// Returns zero past the last code unit.
#[inline(always)]
pub(super) fn unit_at(units: &[u16], at: usize) -> u16
    ensures { result ≡ slice_index units.now at }
{
    if at < units.len() { units[at] } else { 0 }
}

/// A term for each code unit: how many bytes beyond one its UTF-8 has.
#[derive(Drop)]
struct Beyond<'a> {
    units: &'a [u16],
}

impl<'a, const N: usize> Terms<N> for Beyond<'a> {
    ghost text = { λ s. s.units.now };

    ghost term = { λ _. extra_bytes };

    ghost whole = { λ s. length s.units.now - 1 };

    #[inline(always)]
    fn len(&self) -> usize {
        self.units.len()
    }

    #[inline(always)]
    fn end(&self) -> usize {
        self.units.len().saturating_sub(1)
    }

    #[tactic(auto, using(crate::proofs::VectorLemmas::HasLanes_same, crate::proofs::SumLemmas::loaded))]
    #[inline(always)]
    fn terms(&self, at: usize) -> Simd<u8, N> {
        let units = self.units;
        beyond_lanes(
            Simd::<u16, N>::from_slice(&units[at..]),
            Simd::<u16, N>::from_slice(&units[at + 1..]),
        )
    }

    #[tactic(auto, using(crate::proofs::SumLemmas::term_beyond))]
    #[inline(always)]
    fn term_at(&self, at: usize) -> usize {
        let units = self.units;
        bytes_beyond(units[at], unit_at(units, at + 1))
    }

    #[tactic(auto, using(crate::proofs::SumLemmas::ascii_beyond, crate::proofs::SumLemmas::skipped_to))]
    #[inline(always)]
    fn skip(&self, at: usize, end: usize) -> usize {
        let units = self.units;
        let ascii = UnitsBelow {
            units,
            bound: BASIC_LATIN_END,
        };
        skip::<STRIDE, HALF_UNIT_BLOCK, _>(&ascii, at, end)
    }

    ghost inside = { λ s. fewer (length s.units.now) 1 };

    ghost few = { λ _ xs. extra_bytes_few xs };
}

/// Only a whole text of at most 64 code units is tested.
#[inline(always)]
fn short_ascii_len(units: &[u16]) -> usize
    ensures { (result ≤ length units.now) × BelowUpTo 0x80 units.now result }
{
    let bound = BASIC_LATIN_END;
    if units.len() <= UNIT_BLOCK
        && pass_short::<UNIT_BLOCK, _>(&UnitsBelow { units, bound }, units.len())
    {
        return units.len();
    }
    0
}

pub fn utf8_length_of_units(units: &[u16]) -> usize
    ensures { (text : List ℕ) × IsUtf8OfUnits units.now text × (result ≡ length text) }
{
    let terms = Beyond { units };
    let ascii = short_ascii_len(units);
    units.len() + sum_from::<LANES, UNIT_STRIDE, UTF16_LENGTH_SPAN, _, _>(&terms, &terms, ascii)
}
