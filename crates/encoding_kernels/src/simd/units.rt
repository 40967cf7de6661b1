//! Scans for UTF-16 code units below a bound.

ghost use Rattle.std.specs.Prelude.{◌≡◌, ◌+◌, ◌<◌, ◌≤◌, ◌↔◌, IsTrue, length, slice_index};
ghost use Rattle.encoding_kernels.specs.Following.{IsZeroTo};
ghost use Rattle.encoding_kernels.specs.Scans.{AllBelow, IsRunBelow, BelowUpTo};

use crate::simd::scan::{AllPass, LanePredicate, Test, pass_short, run_length, skip_to_end};
use crate::simd::width::{HALF_UNIT_BLOCK, STRIDE, UNIT_STRIDE};
use std::simd::Simd;
use std::simd::prelude::*;

/// UTF-16 code units that are below a bound.
#[derive(Drop)]
pub struct UnitsBelow<'a> {
    pub units: &'a [u16],
    pub bound: u16,
}

impl<'a> Test for UnitsBelow<'a> {
    ghost count = { λ s. length s.units.now };

    ghost passes = { λ s k. slice_index s.units.now k < s.bound };
}

impl<'a, const N: usize> LanePredicate<N> for UnitsBelow<'a> {
    #[inline(always)]
    fn failing(&self, at: usize) -> u64 {
        let units = self.units;
        let others = Simd::<u16, N>::from_slice(&units[at..]).simd_ge(Simd::splat(self.bound));
        others.to_bitmask()
    }
}

impl<'a, const N: usize> AllPass<N, N> for UnitsBelow<'a> {
    #[inline(always)]
    fn pass(&self, at: usize) -> bool {
        LanePredicate::<N>::failing(self, at) == 0
    }
}

impl<'a> AllPass<STRIDE, HALF_UNIT_BLOCK> for UnitsBelow<'a> {
    #[inline(always)]
    fn pass(&self, at: usize) -> bool {
        is_zero_block(others_of_32(self.units, at, self.bound))
    }
}

/// Words of 64 bits are tested: to get a mask, x86-64 would pack the units first, and ARM has no instruction
/// for one.
#[inline(always)]
fn others_of_32(units: &[u16], at: usize, bound: u16) -> u8x64
    requires { at + 32 ≤ length units.now }
    ensures { IsZeroTo result 64 ↔ AllBelow bound units.now at 32 }
{
    let others = u16x32::from_slice(&units[at..]).simd_ge(u16x32::splat(bound));
    others
        .select(u16x32::splat(0xFFFF), u16x32::splat(0))
        .to_le_bytes()
}

#[inline(always)]
fn is_zero_block(lanes: u8x64) -> bool
    ensures { IsTrue result ↔ IsZeroTo lanes 64 }
{
    u64x8::from_le_bytes(lanes).reduce_or() == 0
}

#[inline(always)]
pub fn are_units_below<const N: usize>(units: &[u16], at: usize, bound: u16) -> bool
    requires { (at + N ≤ length units.now) × (0 < N) × (N ≤ 64) }
    ensures { IsTrue result ↔ AllBelow bound units.now at N }
{
    AllPass::<N, N>::pass(&UnitsBelow { units, bound }, at)
}

#[inline(always)]
pub fn units_run_len_below<const N: usize>(units: &[u16], at: usize, bound: u16) -> usize
    requires { (at + N ≤ length units.now) × (0 < N) × (N ≤ 64) }
    ensures { IsRunBelow bound units.now at N result }
{
    run_length::<N, _>(&UnitsBelow { units, bound }, at)
}

/// By vectors, so it may stop earlier than the first unit that isn't below the bound.
#[inline(always)]
pub fn skip_units_below(units: &[u16], bound: u16) -> usize
    ensures within { result ≤ length units.now }
    ensures below { BelowUpTo bound units.now result }
    ensures whole { BelowUpTo bound units.now (length units.now) → result ≡ length units.now }
{
    let test = UnitsBelow { units, bound };
    match units.len() {
        ..UNIT_STRIDE if pass_short::<UNIT_STRIDE, _>(&test, units.len()) => units.len(),
        ..UNIT_STRIDE => 0,
        ..HALF_UNIT_BLOCK => skip_to_end::<UNIT_STRIDE, UNIT_STRIDE, _>(&test, 0, units.len()),
        _ => skip_to_end::<STRIDE, HALF_UNIT_BLOCK, _>(&test, 0, units.len()),
    }
}
