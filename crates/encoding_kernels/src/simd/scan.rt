//! Scans for indices that pass a test, many at a time by vectors, and the longest prefix of bytes below a bound, such
//! as the ASCII prefix. Two vectors that may overlap cover a text of 4 to 128 units, so none is left to a loop.

ghost use Rattle.std.specs.Prelude.{◌≡◌, ℕ, ◌+◌, ◌*◌, ◌<◌, ◌≤◌, ◌↔◌, IsTrue, length, slice_index};
ghost use lib.Count.{count_trailing_zeros};
ghost use Rattle.encoding_kernels.specs.Following.{IsZeroTo};
ghost use Rattle.encoding_kernels.specs.Scans.{PassBetween, IsPassRun, IsWidth, Marks};
ghost use Rattle.encoding_kernels.specs.Scans.{JoinsOthers, AllBelow, IsRunBelow, BelowUpTo};

use crate::simd::width::{
    BLOCK, FOUR_BLOCKS, HALF_BLOCK, HALF_STRIDE, QUARTER_STRIDE, STRIDE, TWO_BLOCKS,
};
use std::simd::Simd;
use std::simd::prelude::*;

/// A test of each index below a count.
pub trait Test {
    ghost count: { Self → ℕ };

    ghost passes: { Self → ℕ → Type 0 };
}

/// A test that finds the first of N indices that fails.
pub trait LanePredicate<const N: usize>: Test {
    fn failing(&self, at: usize) -> u64
        requires { (at + N ≤ Self.count self.now) × (0 < N) × (N ≤ 64) }
        ensures { Marks (Self.passes self.now) at N result };
}

/// A test of W indices at once, by one vector of N or by several.
pub trait AllPass<const N: usize, const W: usize>: Test {
    fn pass(&self, at: usize) -> bool
        requires { (at + W ≤ Self.count self.now) × IsWidth N W }
        ensures { IsTrue result ↔ PassBetween (Self.passes self.now) at (at + W) };
}

#[inline(always)]
pub(crate) fn run_before<const N: usize>(failing: u64) -> usize
    ensures none_failing { failing ≡ 0 → result ≡ N }
    ensures first_failing { 0 < failing → result ≡ count_trailing_zeros 64 failing }
{
    if failing == 0 {
        N
    } else {
        failing.trailing_zeros() as usize
    }
}

#[inline(always)]
pub(crate) fn run_length<const N: usize, T: LanePredicate<N>>(test: &T, at: usize) -> usize
    requires { (at + N ≤ T.count test.now) × (0 < N) × (N ≤ 64) }
    ensures { IsPassRun (T.passes test.now) at N result }
{
    run_before::<N>(test.failing(at))
}

#[inline(always)]
pub(crate) fn skip<const N: usize, const W: usize, T: AllPass<N, W>>(
    test: &T,
    from: usize,
    end: usize,
) -> usize
    requires { (from ≤ end) × (end ≤ T.count test.now) × IsWidth N W }
    ensures within { (from ≤ result) × (result ≤ end) }
    ensures pass { PassBetween (T.passes test.now) from result }
    ensures stops { result + W ≤ end → PassBetween (T.passes test.now) result (result + W) → ⊥ }
{
    if end < W {
        return from;
    }
    // a loop that compares with a bound takes one instruction less than one that subtracts
    let mut at = from;
    while at <= end - W && test.pass(at) {
        at += W;
    }
    at
}

/// The last W indices may overlap the ones before.
#[inline(always)]
pub(crate) fn skip_to_end<const N: usize, const W: usize, T: AllPass<N, W>>(
    test: &T,
    from: usize,
    end: usize,
) -> usize
    requires { (from ≤ end) × (end ≤ T.count test.now) × IsWidth N W }
    ensures within { (from ≤ result) × (result ≤ end) }
    ensures pass { PassBetween (T.passes test.now) from result }
    ensures whole { W ≤ end → PassBetween (T.passes test.now) 0 end → result ≡ end }
{
    let at = skip::<N, W, T>(test, from, end);
    if at == end {
        return end;
    }
    if end - at < W && W <= end && test.pass(end - W) {
        return end;
    }
    at
}

/// The last N indices may overlap the ones before.
#[inline(always)]
pub(crate) fn first_failing<const N: usize, T: LanePredicate<N> + AllPass<N, N>>(
    test: &T,
    from: usize,
    end: usize,
) -> usize
    requires end { (N ≤ end) × (end ≤ T.count test.now) }
    requires lanes { (0 < N) × (N ≤ 64) }
    requires from { (from ≤ end) × PassBetween (T.passes test.now) 0 from }
    ensures within { result ≤ end }
    ensures pass { PassBetween (T.passes test.now) 0 result }
    ensures stops { result < end → T.passes test.now result → ⊥ }
{
    let at = skip::<N, N, T>(test, from, end);
    if at == end {
        return at;
    }
    let place = at.min(end - N);
    place + run_length::<N, T>(test, place)
}

#[inline(always)]
pub(super) fn pass_by_two<const N: usize, T: AllPass<N, N>>(test: &T, count: usize) -> bool
    requires count { (count ≤ T.count test.now) × (N ≤ count) × (count ≤ 2 * N) }
    requires width { (0 < N) × (N ≤ 64) }
    ensures { IsTrue result ↔ PassBetween (T.passes test.now) 0 count }
{
    test.pass(0) & test.pass(count - N)
}

/// May test an index twice: a branch for each count costs more.
#[inline(always)]
pub(super) fn pass_few<T: AllPass<1, 1>>(test: &T, count: usize) -> bool
    requires { (count ≤ T.count test.now) × (0 < count) × (count ≤ 3) }
    ensures { IsTrue result ↔ PassBetween (T.passes test.now) 0 count }
{
    test.pass(0) & test.pass(count / 2) & test.pass(count - 1)
}

/// Tests of the length begin with the longest texts, since a test that fails is a jump.
#[inline(always)]
pub fn pass_short<const LONGEST: usize, T>(test: &T, count: usize) -> bool
where
    T: AllPass<1, 1> + AllPass<4, 4> + AllPass<8, 8>,
    T: AllPass<16, 16> + AllPass<32, 32> + AllPass<64, 64>,
    requires { (count ≤ T.count test.now) × (count ≤ LONGEST) × (LONGEST ≤ 128) }
    ensures { IsTrue result ↔ PassBetween (T.passes test.now) 0 count }
{
    if LONGEST > BLOCK && count > BLOCK {
        return pass_by_two::<BLOCK, T>(test, count);
    }
    if count > HALF_BLOCK {
        return pass_by_two::<HALF_BLOCK, T>(test, count);
    }
    if count >= STRIDE {
        return pass_by_two::<STRIDE, T>(test, count);
    }
    match count {
        HALF_STRIDE.. => pass_by_two::<HALF_STRIDE, T>(test, count),
        QUARTER_STRIDE.. => pass_by_two::<QUARTER_STRIDE, T>(test, count),
        1.. => pass_few(test, count),
        0 => true,
    }
}

/// Bytes that are below a bound.
#[derive(Drop)]
pub struct BytesBelow<'a> {
    pub bytes: &'a [u8],
    pub bound: u8,
}

impl<'a> Test for BytesBelow<'a> {
    ghost count = { λ s. length s.bytes.now };

    ghost passes = { λ s k. slice_index s.bytes.now k < s.bound };
}

impl<'a, const N: usize> LanePredicate<N> for BytesBelow<'a> {
    #[inline(always)]
    fn failing(&self, at: usize) -> u64 {
        let bytes = self.bytes;
        let others = Simd::<u8, N>::from_slice(&bytes[at..]).simd_ge(Simd::splat(self.bound));
        others.to_bitmask()
    }
}

impl<'a, const N: usize> AllPass<N, N> for BytesBelow<'a> {
    #[inline(always)]
    fn pass(&self, at: usize) -> bool {
        LanePredicate::<N>::failing(self, at) == 0
    }
}

impl<'a> AllPass<HALF_BLOCK, BLOCK> for BytesBelow<'a> {
    #[inline(always)]
    fn pass(&self, at: usize) -> bool {
        let bytes = self.bytes;
        let others = others_of_32(bytes, at, self.bound) | others_of_32(bytes, at + 32, self.bound);
        is_zero(others)
    }
}

impl<'a> AllPass<HALF_BLOCK, TWO_BLOCKS> for BytesBelow<'a> {
    #[inline(always)]
    fn pass(&self, at: usize) -> bool {
        let bytes = self.bytes;
        let others = others_of_32(bytes, at, self.bound)
            | others_of_32(bytes, at + 32, self.bound)
            | others_of_32(bytes, at + 64, self.bound)
            | others_of_32(bytes, at + 96, self.bound);
        is_zero(others)
    }
}

impl<'a> AllPass<HALF_BLOCK, FOUR_BLOCKS> for BytesBelow<'a> {
    #[inline(always)]
    fn pass(&self, at: usize) -> bool {
        let bytes = self.bytes;
        // one after another: if pairs were joined first, AVX2 would take one more load
        let others = others_of_32(bytes, at, self.bound)
            | others_of_32(bytes, at + 32, self.bound)
            | others_of_32(bytes, at + 64, self.bound)
            | others_of_32(bytes, at + 96, self.bound)
            | others_of_32(bytes, at + 128, self.bound)
            | others_of_32(bytes, at + 160, self.bound)
            | others_of_32(bytes, at + 192, self.bound)
            | others_of_32(bytes, at + 224, self.bound);
        is_zero(others)
    }
}

#[inline(always)]
fn others_of_32(bytes: &[u8], at: usize, bound: u8) -> u8x32
    requires { at + 32 ≤ length bytes.now }
    ensures { JoinsOthers bound bytes.now at 32 result }
{
    let others = u8x32::from_slice(&bytes[at..]).simd_ge(u8x32::splat(bound));
    others.select(u8x32::splat(0xFF), u8x32::splat(0))
}

#[inline(always)]
pub fn are_bytes_below<const N: usize>(bytes: &[u8], at: usize, bound: u8) -> bool
    requires { (at + N ≤ length bytes.now) × (0 < N) × (N ≤ 64) }
    ensures { IsTrue result ↔ AllBelow bound bytes.now at N }
{
    AllPass::<N, N>::pass(&BytesBelow { bytes, bound }, at)
}

#[inline(always)]
pub fn are_256_below(bytes: &[u8], at: usize, bound: u8) -> bool
    requires { at + 256 ≤ length bytes.now }
    ensures { IsTrue result ↔ AllBelow bound bytes.now at 256 }
{
    AllPass::<HALF_BLOCK, FOUR_BLOCKS>::pass(&BytesBelow { bytes, bound }, at)
}

#[inline(always)]
pub fn run_len_below<const N: usize>(bytes: &[u8], at: usize, bound: u8) -> usize
    requires { (at + N ≤ length bytes.now) × (0 < N) × (N ≤ 64) }
    ensures { IsRunBelow bound bytes.now at N result }
{
    run_length::<N, _>(&BytesBelow { bytes, bound }, at)
}

/// Both of two vectors, which may overlap, are tested, so that no branch depends on the bytes.
#[inline(always)]
pub fn run_len_by_two<const N: usize>(bytes: &[u8], bound: u8) -> usize
    requires { (0 < N) × (N ≤ 64) × (N ≤ length bytes.now) × (length bytes.now ≤ 2 * N) }
    ensures { IsRunBelow bound bytes.now 0 (length bytes.now) result }
{
    let last = bytes.len() - N;
    let first = run_len_below::<N>(bytes, 0, bound);
    let second = run_len_below::<N>(bytes, last, bound);
    if first < N { first } else { last + second }
}

/// Checks the first vector separately, since most prefixes end there.
#[inline(always)]
pub fn prefix_len_below(bytes: &[u8], bound: u8) -> usize
    ensures within { result ≤ length bytes.now }
    ensures below { BelowUpTo bound bytes.now result }
    ensures stops { result < length bytes.now → bound ≤ slice_index bytes.now result }
{
    if bytes.len() >= STRIDE {
        let run = run_len_below::<STRIDE>(bytes, 0, bound);
        if run < STRIDE {
            return run;
        }
        return prefix_after_stride(bytes, bound);
    }
    if bytes.len() >= HALF_STRIDE {
        return first_failing::<HALF_STRIDE, _>(&BytesBelow { bytes, bound }, 0, bytes.len());
    }
    let mut at = 0;
    while at < bytes.len() && bytes[at] < bound {
        at += 1;
    }
    at
}

#[inline(always)]
pub fn prefix_after_stride(bytes: &[u8], bound: u8) -> usize
    requires { (16 ≤ length bytes.now) × BelowUpTo bound bytes.now 16 }
    ensures within { result ≤ length bytes.now }
    ensures below { BelowUpTo bound bytes.now result }
    ensures stops { result < length bytes.now → bound ≤ slice_index bytes.now result }
{
    let test = BytesBelow { bytes, bound };
    if bytes.len() < BLOCK {
        return first_failing::<STRIDE, _>(&test, STRIDE, bytes.len());
    }
    let by_blocks = skip::<HALF_BLOCK, FOUR_BLOCKS, _>(&test, 0, bytes.len());
    first_failing::<BLOCK, _>(&test, by_blocks, bytes.len())
}

/// By words of 64 bits: ARM has no instruction for the mask of a vector.
#[inline(always)]
pub(crate) fn is_zero(lanes: u8x32) -> bool
    ensures { IsTrue result ↔ IsZeroTo lanes 32 }
{
    u64x4::from_le_bytes(lanes).reduce_or() == 0
}

#[inline(always)]
pub(crate) fn zeros<const N: usize>(lanes: Simd<u8, N>) -> usize
    requires { N ≤ 64 }
    ensures within { result ≤ N }
    ensures zeros { IsZeroTo lanes.entry result }
{
    run_before::<N>(lanes.simd_ne(Simd::splat(0)).to_bitmask())
}
