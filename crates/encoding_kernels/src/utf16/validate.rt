//! Code units without an unpaired surrogate, by vectors. Each unit is judged by itself and the one before it, which
//! is loaded separately, so that a block carries no state and the last one may overlap.

ghost use Rattle.std.specs.Prelude.{◌≡◌, false, ◌+◌, ◌-◌, ◌*◌, ◌<◌, ◌≤◌, ◌↔◌, ◌∷◌, length, take, slice_index, IsTrue};
ghost use Rattle.encoding_definitions.specs.Utf16.{IsHighSurrogate};
ghost use Rattle.encoding_kernels.specs.Neighbors.{PairUp, HaveNoSurrogate, pair_fault};
ghost use Rattle.encoding_definitions.specs.Surrogates.{IsValidUtf16};

use crate::scalar::{is_high_surrogate, is_low_surrogate};
use crate::simd::scan::{LanePredicate, Test, run_length};
use crate::simd::width::{HALF_STRIDE, STRIDE};
use std::simd::Simd;
use std::simd::prelude::*;

/// Pairs of adjacent code units: the second is a low surrogate if and only if the first is a high one.
#[derive(Drop)]
struct UnitPairs<'a> {
    units: &'a [u16],
}

impl<'a> Test for UnitPairs<'a> {
    ghost count = { λ s. length s.units.now - 1 };

    ghost passes = { λ s k. pair_fault (slice_index s.units.now (k + 1)) (slice_index s.units.now k) ≡ false };
}

impl<'a, const N: usize> LanePredicate<N> for UnitPairs<'a> {
    #[inline(always)]
    fn failing(&self, at: usize) -> u64 {
        let units = self.units;
        let tops = Simd::<u16, N>::from_slice(&units[at + 1..]) & Simd::splat(0xFC00);
        let tops_before = Simd::<u16, N>::from_slice(&units[at..]) & Simd::splat(0xFC00);
        let low = tops.simd_eq(Simd::splat(0xDC00));
        let high = tops_before.simd_eq(Simd::splat(0xD800));
        (low ^ high).to_bitmask()
    }
}

/// By one test.
#[inline(always)]
pub fn has_no_surrogate(block: &[u16]) -> bool
    requires { length block.now ≡ 64 }
    ensures { IsTrue result → HaveNoSurrogate block.now }
{
    let least = Simd::<u16, STRIDE>::splat(0xD800);
    let first = Simd::<u16, STRIDE>::from_slice(block) - least;
    let second = Simd::<u16, STRIDE>::from_slice(&block[STRIDE..]) - least;
    let third = Simd::<u16, STRIDE>::from_slice(&block[2 * STRIDE..]) - least;
    let fourth = Simd::<u16, STRIDE>::from_slice(&block[3 * STRIDE..]) - least;
    let lowest = first.simd_min(second).simd_min(third.simd_min(fourth));
    !lowest.simd_lt(Simd::splat(0x800)).any()
}

/// No unit is before the first.
#[inline(always)]
pub fn is_after_high_surrogate(units: &[u16], at: usize) -> bool
    requires { at ≤ length units.now }
    ensures { IsTrue result ↔ IsHighSurrogate (slice_index (0 ∷ units.now) at) }
{
    at > 0 && is_high_surrogate(units[at - 1])
}

/// No unit is before the first. So the first N have a pair of neighbors less, which two tests of H cover.
#[inline(always)]
pub fn are_paired<const N: usize, const H: usize>(units: &[u16], at: usize) -> bool
    requires within { (at + N ≤ length units.now) × (0 < N) × (N ≤ 64) }
    requires half { N ≡ 2 * H }
    ensures { IsTrue result → PairUp units.now at (at + N) }
{
    let test = UnitPairs { units };
    if at > 0 {
        return LanePredicate::<N>::failing(&test, at - 1) == 0;
    }
    if is_low_surrogate(units[0]) {
        return false;
    }
    (LanePredicate::<H>::failing(&test, 0) == 0) & (LanePredicate::<H>::failing(&test, H - 1) == 0)
}

#[inline(always)]
pub fn paired_run(units: &[u16], at: usize) -> usize
    requires { at + 16 ≤ length units.now }
    ensures { (result ≤ 16) × PairUp units.now at (at + result) }
{
    let test = UnitPairs { units };
    if at > 0 {
        return run_length::<STRIDE, _>(&test, at - 1);
    }
    if is_low_surrogate(units[0]) {
        return 0;
    }
    let first = run_length::<HALF_STRIDE, _>(&test, 0);
    if first < HALF_STRIDE {
        return first + 1;
    }
    HALF_STRIDE + run_length::<HALF_STRIDE, _>(&test, HALF_STRIDE - 1)
}

#[tactic(auto, using(crate::proofs::PairsLemmas::cut_pairs))]
#[inline(always)]
pub fn before_cut_pair(units: &[u16], at: usize) -> usize
    requires { (at ≤ length units.now) × PairUp units.now 0 at }
    ensures { (result ≤ at) × IsValidUtf16 (take result units.now) }
{
    if at == 0 {
        return at;
    }
    if is_high_surrogate(units[at - 1]) {
        at - 1
    } else {
        at
    }
}
