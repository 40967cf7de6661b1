//! Blocks of code units below U+0800: two bytes for each are computed, and a table selects those of its UTF-8.

ghost use Rattle.std.specs.Prelude.{◌≡◌, ℕ, ◌+◌, ◌*◌, ◌<◌, ◌≤◌, ◌++◌, length, take};
ghost use Rattle.std.specs.Prelude.{slice_index, encode_utf8_all, IsTrue, nat_le, map};
ghost use Rattle.std.specs.Simd.Lanes.{mask_l};
ghost use Rattle.encoding_kernels.specs.KeptBytes.{EncodesTo};
ghost use Rattle.encoding_kernels.specs.Utf8Output.{Spills};

use crate::simd::compress::{places_by, select_in_halves, store_two};
use crate::simd::scan::is_zero;
use std::simd::prelude::*;

#[tactic(auto, using(crate::proofs::MaskLemmas::all_ascii))]
#[inline(always)]
pub(crate) fn are_ascii(units: u16x16) -> bool
    ensures { IsTrue result → (k : ℕ) → k < 16 → slice_index units k < 0x80 }
{
    is_zero((units & u16x16::splat(0xFF80)).to_le_bytes())
}

#[tactic(auto, using(crate::proofs::MaskLemmas::all_two_byte))]
#[inline(always)]
pub(super) fn are_two_byte(units: u16x16) -> bool
    ensures { IsTrue result → (k : ℕ) → k < 16 → slice_index units k < 0x800 }
{
    is_zero((units & u16x16::splat(0xF800)).to_le_bytes())
}

/// A unit of one byte has an arbitrary second one.
#[inline(always)]
fn both_bytes(units: u16x16) -> u8x32
    requires { (k : ℕ) → k < 16 → slice_index units k < 0x800 }
    ensures lane_count { length result ≡ 32 }
    ensures bytes { (k : ℕ) → k < 16
        → EncodesTo (slice_index units k) (slice_index result (2 * k))
        (slice_index result (2 * k + 1)) }
{
    let last = (units & u16x16::splat(0x3F)) << u16x16::splat(8);
    let both = (units >> u16x16::splat(6)) + last + u16x16::splat(0x80C0);
    // of signed numbers, the comparison is one instruction
    let takes_two = units.cast::<i16>().simd_gt(i16x16::splat(0x7F));
    takes_two.select(both, units).to_le_bytes()
}

#[inline(always)]
fn mask_of_others(units: u16x16) -> usize
    requires { (k : ℕ) → k < 16 → slice_index units k < 0x800 }
    ensures upper_bound { result < 0x10000 }
    ensures mask { result ≡ mask_l (map (nat_le 0x80) units) }
{
    units
        .cast::<i16>()
        .simd_gt(i16x16::splat(0x7F))
        .to_bitmask() as usize
}

/// The first eight are encoded at the start of one vector, and the others at the start of another.
#[inline(always)]
fn encode_two_byte(units: u16x16) -> (u8x16, usize, u8x16, usize)
    requires { (k : ℕ) → k < 16 → slice_index units k < 0x800 }
    ensures lane_count { (length result.0 ≡ 16) × (length result.2 ≡ 16) }
    ensures first_length { (8 ≤ result.1) × (result.1 ≤ 16) }
    ensures second { (8 ≤ result.3) × (result.3 ≤ 16) }
    ensures spelled { take result.1 result.0 ++ take result.3 result.2 ≡ encode_utf8_all units }
{
    let mask = mask_of_others(units);
    let (low, high) = (mask & 0xFF, mask >> 8);
    let (bytes, other) = select_in_halves(both_bytes(units), places_by(low), places_by(high));
    (
        bytes,
        8 + low.count_ones() as usize,
        other,
        8 + high.count_ones() as usize,
    )
}

#[inline(always)]
pub(super) fn store_two_byte(units: u16x16, dst: &mut [u8], at: usize) -> usize
    requires dst_length { at + 32 ≤ length dst.old }
    requires short { (k : ℕ) → k < 16 → slice_index units k < 0x800 }
    ensures length_bound { (16 ≤ result) × (result ≤ 32) }
    ensures stored { Spills dst.old dst.new at result 16 (encode_utf8_all units) }
{
    let (bytes, count, other, more) = encode_two_byte(units);
    store_two(dst, at, bytes, count, other, more);
    count + more
}

#[inline(always)]
fn length_of_two_byte(units: u16x16) -> usize
    requires short { (k : ℕ) → k < 16 → slice_index units k < 0x800 }
    ensures count { result ≡ length (encode_utf8_all units) }
    ensures bound { result ≤ 32 }
{
    let (_, count, _, more) = encode_two_byte(units);
    count + more
}

/// The bytes after the UTF-8 are read before the stores and written back.
#[inline(always)]
pub(super) fn write_two_byte(units: u16x16, dst: &mut [u8], at: usize) -> usize
    requires dst_length { at + 48 ≤ length dst.old }
    requires short { (k : ℕ) → k < 16 → slice_index units k < 0x800 }
    ensures length_bound { (16 ≤ result) × (result ≤ 32) }
    ensures written { Spills dst.old dst.new at result 0 (encode_utf8_all units) }
{
    let end = at + length_of_two_byte(units);
    let following = u8x16::from_slice(&dst[end..]);
    let written = store_two_byte(units, dst, at);
    following.copy_to_slice(&mut dst[end..]);
    written
}
