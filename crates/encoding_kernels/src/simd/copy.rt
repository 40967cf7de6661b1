//! Copies by vectors: bytes as bytes or as UTF-16 code units, and ASCII code units as bytes. The rest of `dst` is
//! unchanged. A text of at most 128 bytes, or 64 UTF-16 code units, is tested as a whole and then copied, some units
//! twice to the same index.

ghost use Rattle.std.specs.Prelude.{◌≡◌, ◌+◌, ◌*◌, ◌%◌, ◌<◌, ◌≤◌, ◌++◌, length, map, take, drop};
ghost use Rattle.std.specs.Prelude.{slice_index, ℕ, List, ◌-◌, ◌↔◌, IsTrue, IsFalse, replicate, refl};
ghost use Rattle.encoding_definitions.specs.Prefixes.{WritesPrefix};
ghost use Rattle.encoding_kernels.specs.Scans.{AllBelow, HasLanes, PassBetween};

use crate::simd::scan::{AllPass, BytesBelow, Test, pass_by_two, pass_few};
use crate::simd::units::UnitsBelow;
use crate::simd::width::{BLOCK, HALF_BLOCK, HALF_STRIDE, LANE_INDICES, QUARTER_STRIDE, STRIDE};
use crate::tuning::LONGEST_VECTOR_COPY;
use std::simd::Simd;
use std::simd::prelude::*;

/// The indices of the lanes of a block.
const LANES_OF_BLOCK: [u8; BLOCK] = [
    0, 1, 2, 3, 4, 5, 6, 7, 8, 9, 10, 11, 12, 13, 14, 15, 16, 17, 18, 19, 20, 21, 22, 23, 24, 25,
    26, 27, 28, 29, 30, 31, 32, 33, 34, 35, 36, 37, 38, 39, 40, 41, 42, 43, 44, 45, 46, 47, 48, 49,
    50, 51, 52, 53, 54, 55, 56, 57, 58, 59, 60, 61, 62, 63,
];

#[tactic(auto, using(std::proofs::lemmas::Grind::common_steps, crate::proofs::VectorLemmas::stored))]
#[inline(always)]
pub fn copy<const N: usize>(src: &[u8], from: usize, dst: &mut [u8], at: usize)
    requires { (from + N ≤ length src.now) × (at + N ≤ length dst.old) }
    ensures { dst.new ≡ take at dst.old ++ (take N (drop from src.now) ++ drop (at + N) dst.old) }
{
    Simd::<u8, N>::from_slice(&src[from..]).copy_to_slice(&mut dst[at..]);
}

/// The last stride may overlap the one before it.
#[inline(always)]
fn copy_by_strides<const N: usize>(src: &[u8], dst: &mut [u8])
    requires { (0 < N) × (N ≤ 64) × (N ≤ length src.now) × (length src.now ≤ length dst.old) }
    ensures { WritesPrefix dst.old dst.new (length src.now) src.now }
{
    let last = src.len() - N;
    let mut at = 0;
    while at < last {
        copy::<N>(src, at, dst, at);
        at += N;
    }
    copy::<N>(src, last, dst, last);
}

/// A few bytes are not worth a PLT call of the C library. One, two or three may be copied twice: a branch for
/// each length costs more. Two vectors that may overlap are enough from four to 64 bytes.
#[inline(always)]
pub fn copy_prefix(src: &[u8], dst: &mut [u8])
    requires { length src.now ≤ length dst.old }
    ensures { WritesPrefix dst.old dst.new (length src.now) src.now }
{
    if src.len() >= STRIDE {
        return match src.len() {
            ..HALF_BLOCK => copy_by_strides::<STRIDE>(src, dst),
            ..=BLOCK => copy_by_strides::<HALF_BLOCK>(src, dst),
            ..=LONGEST_VECTOR_COPY => copy_by_strides::<STRIDE>(src, dst),
            _ => dst[..src.len()].copy_from_slice(src),
        };
    }
    match src.len() {
        HALF_STRIDE.. => copy_by_strides::<HALF_STRIDE>(src, dst),
        4.. => copy_by_strides::<4>(src, dst),
        1.. => {
            let (middle, last) = (src.len() / 2, src.len() - 1);
            dst[0] = src[0];
            dst[middle] = src[middle];
            dst[last] = src[last];
        }
        _ => {}
    }
}

#[inline(always)]
pub fn unpack<const N: usize>(src: &[u8], from: usize, dst: &mut [u16], at: usize)
    requires { (from + N ≤ length src.now) × (at + N ≤ length dst.old) }
    ensures { dst.new ≡ take at dst.old ++ (take N (drop from src.now) ++ drop (at + N) dst.old) }
{
    let units = Simd::<u8, N>::from_slice(&src[from..]).cast::<u16>();
    units.copy_to_slice(&mut dst[at..]);
}

#[inline(always)]
pub fn pack<const N: usize>(src: &[u16], from: usize, dst: &mut [u8], at: usize)
    requires within { (from + N ≤ length src.now) × (at + N ≤ length dst.old) }
    requires ascii { AllBelow 0x80 src.now from N }
    ensures { dst.new ≡ take at dst.old ++ (take N (drop from src.now) ++ drop (at + N) dst.old) }
{
    let bytes = Simd::<u16, N>::from_slice(&src[from..]).cast::<u8>();
    bytes.copy_to_slice(&mut dst[at..]);
}

/// Strides are stored in order, as one vector of 64 lanes would not be.
#[inline(always)]
pub fn unpack_block(src: &[u8], dst: &mut [u16], at: usize)
    requires { (at + 64 ≤ length src.now) × (at + 64 ≤ length dst.old) }
    ensures { dst.new ≡ take at dst.old ++ (take 64 (drop at src.now) ++ drop (at + 64) dst.old) }
{
    unpack::<STRIDE>(src, at, dst, at);
    unpack::<STRIDE>(src, at + STRIDE, dst, at + STRIDE);
    unpack::<STRIDE>(src, at + 2 * STRIDE, dst, at + 2 * STRIDE);
    unpack::<STRIDE>(src, at + 3 * STRIDE, dst, at + 3 * STRIDE);
}

#[inline(always)]
pub fn pack_lower<const N: usize>(stride: &[u16; N], dst: &mut [u8], at: usize)
    requires { at + N ≤ length dst.old }
    ensures { dst.new ≡ take at dst.old ++ (map
        (λ unit. unit % 0x100) stride.now ++ drop (at + N) dst.old) }
{
    let lower = Simd::<u16, N>::from_slice(stride) & Simd::splat(0xFF);
    lower.cast::<u8>().copy_to_slice(&mut dst[at..]);
}

/// Stores sixteen bytes.
#[inline(always)]
pub fn write_first(dst: &mut [u8], at: usize, bytes: u8x16, count: usize)
    requires dst_length { at + 16 ≤ length dst.old }
    requires bytes { (count ≤ 16) × (length bytes ≡ 16) }
    ensures { dst.new ≡ take at dst.old ++ (take count bytes ++ drop (at + count) dst.old) }
{
    let following = u8x16::from_slice(&dst[at..]);
    let is_kept = u8x16::from_array(LANE_INDICES).simd_lt(u8x16::splat(count as u8));
    is_kept
        .select(bytes, following)
        .copy_to_slice(&mut dst[at..]);
}

/// Stores 64 bytes.
#[inline(always)]
pub fn copy_run_of_block(src: &[u8], dst: &mut [u8], at: usize, count: usize)
    requires within { (at + 64 ≤ length src.now) × (at + 64 ≤ length dst.old) }
    requires count { count ≤ 64 }
    ensures { dst.new ≡ take at dst.old
        ++ (take count (drop at src.now) ++ drop (at + count) dst.old) }
{
    let block = Simd::<u8, BLOCK>::from_slice(&src[at..]);
    let following = Simd::<u8, BLOCK>::from_slice(&dst[at..]);
    let is_kept = Simd::<u8, BLOCK>::from_array(LANES_OF_BLOCK).simd_lt(Simd::splat(count as u8));
    is_kept
        .select(block, following)
        .copy_to_slice(&mut dst[at..]);
}

/// Stores sixteen bytes.
#[inline(always)]
pub fn copy_first(src: &[u8], dst: &mut [u8], at: usize, count: usize)
    requires within { (16 ≤ length src.now) × (at + 16 ≤ length dst.old) }
    requires count { count ≤ 16 }
    ensures { dst.new ≡ take at dst.old ++ (take count src.now ++ drop (at + count) dst.old) }
{
    // a store of all sixteen needs no load of what an earlier store left there
    if count == STRIDE {
        copy::<STRIDE>(src, 0, dst, at);
    } else {
        write_first(dst, at, u8x16::from_slice(src), count);
    }
}

/// Stores sixteen units.
#[inline(always)]
pub fn unpack_first(src: &[u8], dst: &mut [u16], at: usize, count: usize)
    requires within { (16 ≤ length src.now) × (at + 16 ≤ length dst.old) }
    requires count { count ≤ 16 }
    ensures { dst.new ≡ take at dst.old ++ (take count src.now ++ drop (at + count) dst.old) }
{
    if count == STRIDE {
        return unpack::<STRIDE>(src, 0, dst, at);
    }
    let units = u8x16::from_slice(src).cast::<u16>();
    let following = u16x16::from_slice(&dst[at..]);
    let is_kept = u8x16::from_array(LANE_INDICES)
        .cast::<u16>()
        .simd_lt(u16x16::splat(count as u16));
    is_kept
        .select(units, following)
        .copy_to_slice(&mut dst[at..]);
}

/// Stores sixteen bytes.
#[inline(always)]
pub fn pack_first(stride: &[u16; STRIDE], dst: &mut [u8], at: usize, count: usize)
    requires within { (at + 16 ≤ length dst.old) × (count ≤ 16) }
    requires ascii { AllBelow 0x80 stride.now 0 count }
    ensures { dst.new ≡ take at dst.old ++ (take count stride.now ++ drop (at + count) dst.old) }
{
    let lower = u16x16::from_slice(stride) & u16x16::splat(0xFF);
    write_first(dst, at, lower.cast::<u8>(), count);
}

/// Joins a lower and an upper byte for each lane.
#[inline(always)]
pub(crate) fn join_bytes(lower: u8x16, upper: u8x16) -> (u16x8, u16x8)
    ensures lanes { HasLanes 8 result.0 (λ k. slice_index lower k + 0x100 * slice_index upper k) }
    ensures last { HasLanes 8 result.1
        (λ k. slice_index lower (8 + k) + 0x100 * slice_index upper (8 + k)) }
{
    let first = lower.shuffle(
        upper,
        [0, 16, 1, 17, 2, 18, 3, 19, 4, 20, 5, 21, 6, 22, 7, 23],
    );
    let last = lower.shuffle(
        upper,
        [8, 24, 9, 25, 10, 26, 11, 27, 12, 28, 13, 29, 14, 30, 15, 31],
    );
    (u16x8::from_le_bytes(first), u16x8::from_le_bytes(last))
}

/// Units that are copied if they pass a test.
pub trait ShortCopy<D>: Test {
    ghost units: { Self → List D };

    ghost long: { (test : Self) → length (units test) ≡ Self.count test };

    /// Whether a unit that passes can be copied.
    ghost is_narrow: { Self → Type 0 };
}

/// N units that are copied at a time.
pub trait CopyLanes<const N: usize, D>: ShortCopy<D> {
    fn write(&self, at: usize, dst: &mut [D])
        requires within { (at + N ≤ Self.count self.now) × (at + N ≤ length dst.old) }
        requires pass { PassBetween (Self.passes self.now) at (at + N) }
        requires narrow { Self.is_narrow self.now }
        ensures { dst.new ≡ take at dst.old
            ++ (take N (drop at (Self.units self.now)) ++ drop (at + N) dst.old) };
}

/// Two vectors may overlap.
#[inline(always)]
fn write_by_two<const N: usize, D, T: AllPass<N, N> + CopyLanes<N, D>>(
    test: &T,
    count: usize,
    dst: &mut [D],
) -> bool
    requires count { (count ≡ T.count test.now) × (N ≤ count) × (count ≤ 2 * N) }
    requires width { (0 < N) × (N ≤ 64) }
    requires narrow { T.is_narrow test.now }
    requires dst_length { count ≤ length dst.old }
    ensures pass { IsTrue result ↔ PassBetween (T.passes test.now) 0 count }
    ensures written { IsTrue result → WritesPrefix dst.old dst.new count (T.units test.now) }
    ensures unchanged { IsFalse result → dst.new ≡ dst.old }
{
    if !pass_by_two::<N, T>(test, count) {
        return false;
    }
    test.write(0, dst);
    test.write(count - N, dst);
    true
}

/// May copy a unit twice.
#[inline(always)]
fn write_few<D, T: AllPass<1, 1> + CopyLanes<1, D>>(test: &T, count: usize, dst: &mut [D]) -> bool
    requires few { (count ≡ T.count test.now) × (0 < count) × (count ≤ 3) }
    requires narrow { T.is_narrow test.now }
    requires dst_length { count ≤ length dst.old }
    ensures pass { IsTrue result ↔ PassBetween (T.passes test.now) 0 count }
    ensures written { IsTrue result → WritesPrefix dst.old dst.new count (T.units test.now) }
    ensures unchanged { IsFalse result → dst.new ≡ dst.old }
{
    if !pass_few(test, count) {
        return false;
    }
    test.write(0, dst);
    test.write(count / 2, dst);
    test.write(count - 1, dst);
    true
}

#[inline(always)]
pub fn write_short<const LONGEST: usize, D, T>(test: &T, count: usize, dst: &mut [D]) -> bool
where
    T: AllPass<1, 1> + AllPass<4, 4> + AllPass<8, 8>,
    T: AllPass<16, 16> + AllPass<32, 32> + AllPass<64, 64>,
    T: CopyLanes<1, D> + CopyLanes<4, D> + CopyLanes<8, D>,
    T: CopyLanes<16, D> + CopyLanes<32, D> + CopyLanes<64, D>,
    requires short { (count ≡ T.count test.now) × (count ≤ LONGEST) × (LONGEST ≤ 128) }
    requires narrow { T.is_narrow test.now }
    requires dst_length { count ≤ length dst.old }
    ensures pass { IsTrue result ↔ PassBetween (T.passes test.now) 0 count }
    ensures written { IsTrue result → WritesPrefix dst.old dst.new count (T.units test.now) }
    ensures unchanged { IsFalse result → dst.new ≡ dst.old }
{
    if LONGEST > BLOCK && count > BLOCK {
        return write_by_two::<BLOCK, D, T>(test, count, dst);
    }
    if count > HALF_BLOCK {
        return write_by_two::<HALF_BLOCK, D, T>(test, count, dst);
    }
    if count >= STRIDE {
        return write_by_two::<STRIDE, D, T>(test, count, dst);
    }
    match count {
        HALF_STRIDE.. => write_by_two::<HALF_STRIDE, D, T>(test, count, dst),
        QUARTER_STRIDE.. => write_by_two::<QUARTER_STRIDE, D, T>(test, count, dst),
        1.. => write_few(test, count, dst),
        0 => true,
    }
}

impl<'a> ShortCopy<u8> for BytesBelow<'a> {
    ghost units = { λ s. s.bytes.now };

    ghost long = { λ _. refl };

    ghost is_narrow = { λ s. s.bound ≤ 0x80 };
}

impl<'a, const N: usize> CopyLanes<N, u8> for BytesBelow<'a> {
    #[inline(always)]
    fn write(&self, at: usize, dst: &mut [u8]) {
        copy::<N>(self.bytes, at, dst, at);
    }
}

impl<'a> ShortCopy<u16> for BytesBelow<'a> {
    ghost units = { λ s. s.bytes.now };

    ghost long = { λ _. refl };

    ghost is_narrow = { λ s. s.bound ≤ 0x80 };
}

impl<'a, const N: usize> CopyLanes<N, u16> for BytesBelow<'a> {
    #[inline(always)]
    fn write(&self, at: usize, dst: &mut [u16]) {
        unpack::<N>(self.bytes, at, dst, at);
    }
}

impl<'a> ShortCopy<u8> for UnitsBelow<'a> {
    ghost units = { λ s. s.units.now };

    ghost long = { λ _. refl };

    ghost is_narrow = { λ s. s.bound ≤ 0x80 };
}

impl<'a, const N: usize> CopyLanes<N, u8> for UnitsBelow<'a> {
    #[inline(always)]
    fn write(&self, at: usize, dst: &mut [u8]) {
        pack::<N>(self.units, at, dst, at);
    }
}
