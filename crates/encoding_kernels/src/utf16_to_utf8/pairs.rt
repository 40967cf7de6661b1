//! Blocks of code units that are below U+0800 or halves of a surrogate pair, which have two bytes each in UTF-8.

ghost use Rattle.std.specs.Prelude.{◌≡◌, ℕ, ◌+◌, ◌*◌, ◌<◌, ◌≤◌, ◌++◌, length, take};
ghost use Rattle.std.specs.Prelude.{drop, slice_index, IsTrue, nat_le, map, ◌⊎◌};
ghost use Rattle.std.specs.Simd.Lanes.{mask_l};
ghost use Rattle.encoding_definitions.specs.Utf16.{AreCodeUnits, IsHighSurrogate};
ghost use Rattle.encoding_kernels.specs.SurrogatePairs.{AreTwoByteOrPaired, IsTwoByteOrHalf, EncodesHalf};
ghost use Rattle.encoding_kernels.specs.SurrogatePairs.{half_bytes, concatenated, halves_from};

use crate::scalar::{is_high_surrogate, is_low_surrogate};
use crate::simd::compress::{keep_pairs, write_both};
use crate::utf16::source::CodeUnits;
use std::simd::prelude::*;

/// The last pair may be cut.
#[inline(always)]
pub(super) fn are_two_byte_or_paired<S: CodeUnits>(src: S, at: usize) -> bool
    requires within { (at + 17 ≤ length (S.units src)) × (at + 17 ≤ usize.MAX) }
    requires code_units { AreCodeUnits (S.units src) }
    ensures { IsTrue result → AreTwoByteOrPaired (S.units src) at 16 }
{
    if is_low_surrogate(src.unit_at(at)) {
        return false;
    }
    let units = src.sixteen(at);
    let next = src.sixteen(at + 1);
    let high = (units & u16x16::splat(0xFC00)).simd_eq(u16x16::splat(0xD800));
    let low = (next & u16x16::splat(0xFC00)).simd_eq(u16x16::splat(0xDC00));
    let halves = (units & u16x16::splat(0xF800)).simd_eq(u16x16::splat(0xD800));
    let faults = (high ^ low) | (units.simd_ge(u16x16::splat(0x800)) ^ halves);
    !faults.any()
}

/// A unit of one byte has an arbitrary second one.
#[inline(always)]
fn bytes_of_halves(units: u16x8, before: u16x8) -> u8x16
    requires { (k : ℕ) → k < 8 → IsTwoByteOrHalf (slice_index units k) }
    ensures lane_count { length result ≡ 16 }
    ensures bytes { (k : ℕ) → k < 8 → EncodesHalf (slice_index before k) (slice_index units k)
        (slice_index result (2 * k)) (slice_index result (2 * k + 1)) }
{
    let six = u16x8::splat(0x3F);
    let last = (units & six) << u16x8::splat(8);
    let upper = units >> u16x8::splat(6);
    let short = upper + last + u16x8::splat(0x80C0);
    let lead = units + u16x8::splat(0x40);
    let second = ((lead >> u16x8::splat(2)) & six) << u16x8::splat(8);
    let high = (lead >> u16x8::splat(8)) + second + u16x8::splat(0x8018);
    let third = ((before & u16x8::splat(3)) << u16x8::splat(4)) + (upper & u16x8::splat(0xF));
    let low = third + last + u16x8::splat(0x8080);
    let half = units.simd_ge(u16x8::splat(0xDC00)).select(low, high);
    let several = units.simd_ge(u16x8::splat(0x800)).select(half, short);
    let all = units.simd_ge(u16x8::splat(0x80)).select(several, units);
    all.to_le_bytes()
}

#[inline(always)]
fn mask_beyond_ascii(units: u16x8) -> usize
    ensures upper_bound { result < 256 }
    ensures mask { result ≡ mask_l (map (nat_le 0x80) units) }
{
    units.simd_ge(u16x8::splat(0x80)).to_bitmask() as usize
}

/// The UTF-8 at the start of the vector, and its length.
#[inline(always)]
fn encode_halves(units: u16x8, before: u16x8) -> (u8x16, usize)
    requires { (k : ℕ) → k < 8 → IsTwoByteOrHalf (slice_index units k) }
    ensures lane_count { length result.0 ≡ 16 }
    ensures out_length { (8 ≤ result.1) × (result.1 ≤ 16) }
    ensures spelled { take result.1 result.0
        ≡ concatenated (λ k. half_bytes (slice_index before k) (slice_index units k)) 0 8 }
{
    keep_pairs(bytes_of_halves(units, before), mask_beyond_ascii(units))
}

#[inline(always)]
fn cut_halves<S: CodeUnits>(src: S, at: usize) -> usize
    requires { at < length (S.units src) }
    ensures { ((result ≡ 1) × IsHighSurrogate (slice_index (S.units src) at))
        ⊎ ((result ≡ 0) × (IsHighSurrogate (slice_index (S.units src) at) → ⊥)) }
{
    if is_high_surrogate(src.unit_at(at)) {
        1
    } else {
        0
    }
}

/// Takes fifteen code units if the last is a high surrogate.
#[inline(always)]
pub(super) fn write_two_byte_or_paired<S: CodeUnits>(
    src: S,
    at: usize,
    dst: &mut [u8],
    to: usize,
) -> (usize, usize)
    requires dst_length { (at + 16 ≤ length (S.units src)) × (to + 32 ≤ length dst.old) }
    requires end { at + 16 ≤ usize.MAX }
    requires paired { AreTwoByteOrPaired (S.units src) at 16 }
    ensures units { ((result.0 ≡ 15) × IsHighSurrogate (slice_index (S.units src) (at + 15)))
        ⊎ ((result.0 ≡ 16) × (IsHighSurrogate (slice_index (S.units src) (at + 15)) → ⊥)) }
    ensures out_length { result.1 ≡ length (halves_from (S.units src) at result.0) }
    ensures length_bound { result.1 ≤ 32 }
    ensures written { dst.new ≡ take to dst.old
        ++ (halves_from (S.units src) at result.0 ++ drop (to + result.1) dst.old) }
{
    let first = src.eight(at);
    let second = src.eight(at + 8);
    let (bytes, count) = encode_halves(first, first.swizzle([0, 0, 1, 2, 3, 4, 5, 6]));
    let (other, more) = encode_halves(second, src.eight(at + 7));
    let cut = cut_halves(src, at + 15);
    let rest = more - 2 * cut;
    write_both(dst, to, bytes, count, other, rest);
    (16 - cut, count + rest)
}
