//! UTF-16 of strides of sixteen bytes. Each is at an index that doesn't depend on the text, so no stride waits for
//! the end of a character in the one before it. The code unit that ends with each byte is computed by the three bytes
//! before it, and the lanes that are kept move to the start of the vector. The last stride ends with the text and may
//! overlap the one before it, so that only the length decides how often the loop iterates.

ghost use Rattle.std.specs.Prelude.{◌≡◌, ◌+◌, ◌-◌, ◌<◌, ◌≤◌, ◌∷◌, length, take, drop, slice_index};
ghost use Rattle.std.specs.Prelude.{ℕ, ◌*◌, ◌/◌, ◌%◌, ◌^◌, false, ◌++◌, replicate, IsTrue, map};
ghost use Rattle.std.specs.List.{flat_map};
ghost use Rattle.std.specs.Char.Escape.{encode_utf16};
ghost use Rattle.std.specs.Str.{IsUtf8, IsCharBoundary, chars};
ghost use Rattle.encoding_definitions.specs.Prefixes.{WritesPrefix};
ghost use Rattle.encoding_kernels.specs.Scans.{BelowUpTo, HasLanes};
ghost use Rattle.encoding_kernels.specs.EndingUnits.{NoUnitEnds, WritesCompressed, WritesUtf16, units_after};
ghost use Rattle.encoding_kernels.specs.EndingUnits.{units_in, ends_after, low_bits, unit_at, compressed_places};
ghost use Rattle.std.specs.Simd.Lanes.{mask_l};

use crate::scalar::{decode_utf8_scalar, sequence_length, write_utf16};
use crate::simd::copy::join_bytes;
use crate::simd::lookup::table;
use crate::simd::width::{HALF_STRIDE, STRIDE};
use crate::utf8::validate::{bytes_before, with_zeros};
use std::simd::prelude::*;

/// The least byte that begins four.
pub(super) const FOUR_BYTES: u8 = 0xF0;

/// The least length of a text that is written by strides: three bytes precede its last one.
pub(super) const STRIDE_AND_BEFORE: usize = STRIDE + 3;

/// The indices of the lanes of a vector.
const LANE_INDICES: [u16; 8] = [0, 1, 2, 3, 4, 5, 6, 7];

#[inline(always)]
pub(super) fn is_below(block: u8x16, bound: u8) -> bool
    ensures { IsTrue result → (k : ℕ) → k < 16 → slice_index block k < bound }
{
    block.simd_ge(u8x16::splat(bound)).to_bitmask() == 0
}

/// The last eight of the ten bits of a high surrogate, without what is added to them.
#[inline(always)]
fn high_bits(one: u8x16, block: u8x16) -> u8x16
    ensures { (f : ℕ → ℕ) → HasLanes 16 one f
        → HasLanes 16 result (λ k. low_bits (f k) (slice_index block k) / 0x10) }
{
    (one << u8x16::splat(2)) + ((block >> u8x16::splat(4)) & u8x16::splat(3))
}

/// The lower byte of the code unit that ends with each byte.
#[inline(always)]
fn lower_bytes<const N: usize>(two: u8x16, one: u8x16, block: u8x16) -> u8x16
    ensures { (x y a : ℕ → ℕ) → HasLanes 16 two y → HasLanes 16 one a
        → (N < 4 → (k : ℕ) → k < 16 → (x k < 0xF0) × (y k < 0xF0))
        → HasLanes 16 result (λ k. unit_at (x k) (y k) (a k) (slice_index block k) % 0x100) }
{
    let is_ascii = block.simd_lt(u8x16::splat(0x80));
    // the last eight of twelve bits: six of each byte, and six of the one before it
    let bits = (one << u8x16::splat(6)) + (block & u8x16::splat(0x3F));
    if N < 4 {
        return is_ascii.select(block, bits);
    }
    let high = high_bits(one, block) + u8x16::splat(0xC0);
    let longer = two.simd_ge(u8x16::splat(0xF0)).select(high, bits);
    is_ascii.select(block, longer)
}

/// The upper byte of the code unit that ends with each byte.
#[inline(always)]
fn upper_bytes<const N: usize>(three: u8x16, two: u8x16, one: u8x16, block: u8x16) -> u8x16
    ensures { (x y a : ℕ → ℕ) → HasLanes 16 three x → HasLanes 16 two y → HasLanes 16 one a
        → (N < 4 → (k : ℕ) → k < 16 → (x k < 0xF0) × (y k < 0xF0))
        → HasLanes 16 result (λ k. unit_at (x k) (y k) (a k) (slice_index block k) / 0x100) }
{
    let is_ascii = block.simd_lt(u8x16::splat(0x80));
    // the four bits above those, and above these the four of a byte that begins three and is two before
    let above = two.saturating_sub(u8x16::splat(0xE0)) << u8x16::splat(4);
    let bits = above + ((one >> u8x16::splat(2)) & u8x16::splat(0x0F));
    if N < 4 {
        return is_ascii.select(u8x16::splat(0), bits);
    }
    let high = high_bits(one, block)
        .simd_ge(u8x16::splat(0x40))
        .select(u8x16::splat(0xD8), u8x16::splat(0xD7))
        + (two & u8x16::splat(7));
    let low = three
        .simd_ge(u8x16::splat(0xF0))
        .select(u8x16::splat(0xDC), u8x16::splat(0));
    let longer = two.simd_ge(u8x16::splat(0xF0)).select(high, bits | low);
    is_ascii.select(u8x16::splat(0), longer)
}

/// The code unit that ends with each of the sixteen bytes.
#[inline(always)]
fn units_of_stride<const N: usize>(
    src: &[u8],
    at: usize,
    three: u8x16,
    two: u8x16,
    one: u8x16,
) -> (u16x8, u16x8)
    requires within { at + 16 ≤ length src.now }
    requires three_before { HasLanes 16 three (λ k. slice_index (0 ∷ 0 ∷ 0 ∷ src.now) (at + k)) }
    requires two_before { HasLanes 16 two (λ k. slice_index (0 ∷ 0 ∷ src.now) (at + k)) }
    requires one_before { HasLanes 16 one (λ k. slice_index (0 ∷ src.now) (at + k)) }
    requires short { N < 4 → BelowUpTo 0xF0 src.now (at + 16) }
    ensures { (result.0 ≡ take 8 (drop at (units_after 0 0 0 src.now)))
        × (result.1 ≡ take 8 (drop (at + 8) (units_after 0 0 0 src.now))) }
{
    let block = u8x16::from_slice(&src[at..]);
    join_bytes(
        lower_bytes::<N>(two, one, block),
        upper_bytes::<N>(three, two, one, block),
    )
}

/// A bit for each byte that ends a code unit, except the first `from` and those from `to` on.
#[inline(always)]
fn ends_of_stride(src: &[u8], at: usize, one: u8x16, from: usize, to: usize) -> usize
    requires within { at + 16 ≤ length src.now }
    requires one_before { HasLanes 16 one (λ k. slice_index (0 ∷ src.now) (at + k)) }
    requires part { (from ≤ to) × (to ≤ 16) }
    ensures small { result < 2 ^ 16 }
    ensures mask { result ≡ mask_l (replicate from false
        ++ drop from (take to (take 16 (drop at (ends_after 0 src.now)))
        ++ replicate (16 - to) false)) }
{
    let block = u8x16::from_slice(&src[at..]);
    let ends = block.simd_lt(u8x16::splat(0xC0)) & one.simd_lt(u8x16::splat(0xE0));
    let mask = ends.to_bitmask() as usize;
    (mask & ((1 << to) - 1)) >> from << from
}

/// For each mask of eight lanes, the indices of the two bytes of each lane that is kept, in order. Those of the first
/// lane follow.
const COMPRESSED: [u64; 512] = table!(lanes
    [0x0F0Eu128 0x0D0Cu128 0x0B0Au128 0x0908u128 0x0706u128 0x0504u128 0x0302u128 0x0100u128]
    0x0100_0100_0100_0100_0100_0100_0100_0100u128
);

/// Copies of the first lane follow the kept ones.
#[inline(always)]
fn compress(lanes: u16x8, mask: usize) -> u16x8
    requires { mask < 256 }
    ensures { result ≡ map (λ k. slice_index lanes k) (compressed_places mask) }
{
    let (first, last) = (COMPRESSED[2 * mask], COMPRESSED[2 * mask + 1]);
    let places = u64x2::from_array([first, last]).to_le_bytes();
    u16x8::from_le_bytes(lanes.to_le_bytes().swizzle_dyn(places))
}

/// BEFORE is 0 for the first sixteen bytes of the text, and 3 for others. `dst` has at least ROOM units:
/// sixteen, or none. If sixteen, up to SPARE units after those written may change: eight, or none.
#[inline(always)]
pub(super) fn write_stride<
    const N: usize,
    const BEFORE: usize,
    const SPARE: usize,
    const ROOM: usize,
>(src: &[u8], at: usize, from: usize, to: usize, dst: &mut [u16]) -> usize
    requires before { (BEFORE ≤ at) × (BEFORE < 3 → at ≡ 0) }
    requires within { at + 16 ≤ length src.now }
    requires part { (from ≤ to) × (to ≤ 16) }
    requires dst_length { (ROOM ≤ length dst.old) × (to - from ≤ length dst.old) }
    requires spare { ROOM < 16 → SPARE ≡ 0 }
    requires short { N < 4 → BelowUpTo 0xF0 src.now (at + 16) }
    ensures { WritesCompressed (take (to - from) (drop (at + from) (ends_after 0 src.now)))
        (take (to - from) (drop (at + from) (units_after 0 0 0 src.now))) dst.old dst.new result
        (result + SPARE) }
{
    let (three, two, one) = bytes_before::<BEFORE>(src, at);
    let (first_units, last_units) = units_of_stride::<N>(src, at, three, two, one);
    let kept = ends_of_stride(src, at, one, from, to);
    let count = (kept & 0xFF).count_ones() as usize;
    let more = (kept >> 8).count_ones() as usize;
    let first = compress(first_units, kept & 0xFF);
    let last = compress(last_units, kept >> 8);
    if SPARE >= 8 {
        first.copy_to_slice(dst);
        last.copy_to_slice(&mut dst[count..]);
        return count + more;
    }
    if ROOM >= STRIDE || dst.len() >= STRIDE {
        let following = u16x8::from_slice(&dst[count..]);
        first.copy_to_slice(dst);
        let is_kept = u16x8::from_array(LANE_INDICES).simd_lt(u16x8::splat(more as u16));
        is_kept
            .select(last, following)
            .copy_to_slice(&mut dst[count..]);
        return count + more;
    }
    let mut units = [0; STRIDE];
    let all = &mut units[..];
    first.copy_to_slice(all);
    last.copy_to_slice(&mut all[count..]);
    dst[..count + more].copy_from_slice(&units[..count + more]);
    count + more
}

#[inline(always)]
pub(super) fn whole_end<const WIDTH: usize, const N: usize>(src: &[u8]) -> usize
    requires within { (3 ≤ WIDTH) × (WIDTH ≤ length src.now) × IsUtf8 src.now }
    requires short { N < 4 → BelowUpTo 0xF0 src.now WIDTH }
    ensures end { (WIDTH ≤ result + 3) × (result ≤ WIDTH) × IsCharBoundary src.now result }
    ensures cut { N < 4 → NoUnitEnds src.now result WIDTH }
{
    if N >= 4 && src[WIDTH - 3] >= FOUR_BYTES {
        return WIDTH - 3;
    }
    if src[WIDTH - 2] >= 0xE0 {
        return WIDTH - 2;
    }
    if src[WIDTH - 1] >= 0xC0 {
        return WIDTH - 1;
    }
    WIDTH
}

#[inline(always)]
pub(super) fn write_character(src: &[u8], dst: &mut [u16]) -> (usize, usize)
    requires dst_length { (0 < length src.now) × (length src.now ≤ length dst.old) }
    requires text { IsUtf8 src.now }
    ensures progress { 0 < result.0 }
    ensures written { WritesUtf16 src.now dst.old dst.new result.0 result.1 result.1 }
{
    let length = sequence_length(src[0]);
    let scalar = decode_utf8_scalar(&src[..length]);
    let Some(units) = write_utf16(scalar, dst) else {
        unreachable!();
    };
    (length, units)
}

#[inline(never)]
pub(super) fn write_strides<const N: usize>(src: &[u8], dst: &mut [u16]) -> usize
    requires dst_length { (19 ≤ length src.now) × (length src.now ≤ length dst.old) }
    requires text { IsUtf8 src.now }
    requires short { N < 4 → BelowUpTo 0xF0 src.now (length src.now) }
    ensures { WritesPrefix dst.old dst.new result (flat_map encode_utf16 (chars src.now)) }
{
    let mut written = write_stride::<N, 0, 0, STRIDE>(src, 0, 0, STRIDE, dst);
    let mut at = STRIDE;
    while src.len() - at >= STRIDE {
        written += write_stride::<N, 3, 0, STRIDE>(src, at, 0, STRIDE, &mut dst[written..]);
        at += STRIDE;
    }
    if at == src.len() {
        return written;
    }
    let last = src.len() - STRIDE;
    written + write_stride::<N, 3, 0, 0>(src, last, at - last, STRIDE, &mut dst[written..])
}

/// Fewer than eight bytes are converted by characters, and others as one block that zeros follow.
#[inline(never)]
pub(super) fn write_tail(src: &[u8], dst: &mut [u16]) -> usize
    requires dst_length { (length src.now ≤ 18) × (length src.now ≤ length dst.old) }
    requires text { IsUtf8 src.now }
    ensures { WritesPrefix dst.old dst.new result (flat_map encode_utf16 (chars src.now)) }
{
    let mut read = 0;
    let mut written = 0;
    while !matches!(src.len() - read, HALF_STRIDE..=STRIDE) {
        if read == src.len() {
            return written;
        }
        let (bytes, units) = write_character(&src[read..], &mut dst[written..]);
        read += bytes;
        written += units;
    }
    let lanes = with_zeros(&src[read..]);
    let (block, rest) = (lanes.to_array(), src.len() - read);
    if is_below(lanes, FOUR_BYTES) {
        return written + write_stride::<3, 0, 0, 0>(&block, 0, 0, rest, &mut dst[written..]);
    }
    written + write_stride::<4, 0, 0, 0>(&block, 0, 0, rest, &mut dst[written..])
}

/// Out of line, since few texts need it.
#[inline(never)]
pub(super) fn write_block(src: &[u8], dst: &mut [u16]) -> (usize, usize)
    requires dst_length { (40 ≤ length src.now) × (length src.now ≤ length dst.old) }
    requires text { IsUtf8 src.now }
    ensures progress { (0 < result.0) × (result.0 ≤ 16) }
    ensures written { WritesUtf16 src.now dst.old dst.new result.0 result.1 (units_in src.now) }
{
    let end = whole_end::<STRIDE, 4>(src);
    (end, write_stride::<4, 0, 8, STRIDE>(src, 0, 0, end, dst))
}
