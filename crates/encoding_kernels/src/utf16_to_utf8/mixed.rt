//! The UTF-8 of sixteen code units that are no surrogates: each has four bytes, and a table selects and orders those of
//! its UTF-8.

ghost use Rattle.std.specs.Prelude.{◌≡◌, ℕ, ◌+◌, ◌*◌, ◌<◌, ◌≤◌, ◌++◌, length, take, drop, slice_index};
ghost use Rattle.std.specs.Prelude.{encode_utf8_all, IsTrue, ◌/◌, ◌%◌, List, replicate};
ghost use Rattle.encoding_definitions.specs.Prefixes.{WritesPrefix};
ghost use Rattle.std.specs.Simd.Lanes.{mask_l};
ghost use Rattle.encoding_kernels.specs.Utf8Output.{Spills};
ghost use Rattle.encoding_kernels.specs.KeptBytes.{EncodesBy, length_classes};

use crate::simd::compress::{select_in_halves, store_two, unit_places_by};
use crate::simd::scan::run_before;
use std::simd::prelude::*;

/// The index of the lower byte of each of sixteen code units, twice.
const LOWER_BYTES: [usize; 32] = [
    0, 0, 2, 2, 4, 4, 6, 6, 8, 8, 10, 10, 12, 12, 14, 14, 16, 16, 18, 18, 20, 20, 22, 22, 24, 24,
    26, 26, 28, 28, 30, 30,
];

#[tactic(auto, using(crate::proofs::MixedLemmas::all_plain))]
#[inline(always)]
pub(super) fn are_non_surrogate(units: u16x16) -> bool
    ensures { IsTrue result → (k : ℕ) → k < 16
        → (0xD800 ≤ slice_index units k) × (slice_index units k ≤ 0xDFFF) → ⊥ }
{
    let tops = units & u16x16::splat(0xF800);
    !tops.simd_eq(u16x16::splat(0xD800)).any()
}

#[inline(always)]
pub(super) fn non_surrogate_prefix(units: u16x16) -> usize
    ensures within { result ≤ 16 }
    ensures plain { (k : ℕ) → k < result
        → (0xD800 ≤ slice_index units k) × (slice_index units k ≤ 0xDFFF) → ⊥ }
{
    let tops = units & u16x16::splat(0xF800);
    run_before::<16>(tops.simd_eq(u16x16::splat(0xD800)).to_bitmask())
}

/// Two bits for each code unit: whether it is ASCII, and whether it is below U+0800. A saturating subtraction
/// leaves the highest bit of a lane set if the unit is below its bound.
#[inline(always)]
fn mask_of_classes(units: u16x16) -> usize
    ensures upper_bound { result < 0x100000000 }
    ensures mask { result ≡ mask_l (length_classes units) }
{
    let ascii = u16x16::splat(0x807F).saturating_sub(units);
    let below = u16x16::splat(0x87FF).saturating_sub(units);
    let length_classes = (ascii >> u16x16::splat(8)) + (below & u16x16::splat(0xFF00));
    length_classes
        .to_le_bytes()
        .simd_ge(u8x32::splat(0x80))
        .to_bitmask() as usize
}

/// The first word has the unit itself, if it is ASCII, and the last byte of a longer sequence. The second has
/// the first byte of three, and the one before the last.
#[inline(always)]
fn two_words(units: u16x16) -> (u16x16, u16x16)
    ensures lane_count { (length result.0 ≡ 16) × (length result.1 ≡ 16) }
    ensures upper_bound { (k : ℕ) → k < 16
        → (slice_index result.0 k < 0x10000) × (slice_index result.1 k < 0x10000) }
    ensures spelled { (k : ℕ) → k < 16 → EncodesBy (slice_index units k)
        (slice_index result.0 k % 0x100) (slice_index result.0 k / 0x100)
        (slice_index result.1 k % 0x100) (slice_index result.1 k / 0x100) }
{
    let lower = u16x16::from_le_bytes(units.to_le_bytes().swizzle(LOWER_BYTES));
    let last = (lower & u16x16::splat(0x3F7F)) + u16x16::splat(0x8000);
    let below = u16x16::splat(0x87FF).saturating_sub(units);
    let mark = ((below >> u16x16::splat(1)) & u16x16::splat(0x4000)) + u16x16::splat(0x80E0);
    let middle = (units << u16x16::splat(2)) & u16x16::splat(0x3F00);
    (last, (units >> u16x16::splat(12)) + middle + mark)
}

/// The first vector has the bytes of the first four units of each eight, as AVX2 interleaves them, and the
/// second those of the others.
#[inline(always)]
fn four_bytes(units: u16x16) -> (u8x32, u8x32)
    ensures first_half { (k : ℕ) → k < 8 → EncodesBy (slice_index units (k / 4 * 4 + k))
        (slice_index result.0 (4 * k)) (slice_index result.0 (4 * k + 1))
        (slice_index result.0 (4 * k + 2)) (slice_index result.0 (4 * k + 3)) }
    ensures second { (k : ℕ) → k < 8 → EncodesBy (slice_index units (k / 4 * 4 + k + 4))
        (slice_index result.1 (4 * k)) (slice_index result.1 (4 * k + 1))
        (slice_index result.1 (4 * k + 2)) (slice_index result.1 (4 * k + 3)) }
{
    let (words, others) = two_words(units);
    let first = words.shuffle(
        others,
        [0, 16, 1, 17, 2, 18, 3, 19, 8, 24, 9, 25, 10, 26, 11, 27],
    );
    let second = words.shuffle(
        others,
        [4, 20, 5, 21, 6, 22, 7, 23, 12, 28, 13, 29, 14, 30, 15, 31],
    );
    (first.to_le_bytes(), second.to_le_bytes())
}

/// The UTF-8 at the start of each vector, and its length.
#[inline(always)]
fn encode_twice_four(bytes: u8x32, first: usize, second: usize) -> (u8x16, usize, u8x16, usize)
    requires { (first < 0x100) × (second < 0x100) }
    ensures lane_count { (length result.0 ≡ 16) × (length result.2 ≡ 16) }
    ensures length_bounds { (result.1 ≤ 12) × (result.3 ≤ 12) }
    ensures lower { (us : List ℕ) → length us ≡ 4 → first ≡ mask_l (length_classes us)
        → ((k : ℕ) → k < 4 → EncodesBy (slice_index us k)
        (slice_index bytes (4 * k)) (slice_index bytes (4 * k + 1))
        (slice_index bytes (4 * k + 2)) (slice_index bytes (4 * k + 3)))
        → take result.1 result.0 ≡ encode_utf8_all us }
    ensures upper { (us : List ℕ) → length us ≡ 4 → second ≡ mask_l (length_classes us)
        → ((k : ℕ) → k < 4 → EncodesBy (slice_index us k)
        (slice_index bytes (16 + 4 * k)) (slice_index bytes (16 + (4 * k + 1)))
        (slice_index bytes (16 + (4 * k + 2))) (slice_index bytes (16 + (4 * k + 3))))
        → take result.3 result.2 ≡ encode_utf8_all us }
{
    let (places, count) = unit_places_by(first);
    let (others, more) = unit_places_by(second);
    let (lower, upper) = select_in_halves(bytes, places, others);
    (lower, count, upper, more)
}

#[inline(always)]
fn length_of_sixteen(units: u16x16) -> usize
    requires { length units ≡ 16 }
    ensures count { result ≡ length (encode_utf8_all units) }
    ensures bounds { (16 ≤ result) × (result ≤ 48) }
{
    48 - mask_of_classes(units).count_ones() as usize
}

/// The number of bytes that the blocks of sixteen code units may change after their own.
pub(super) const SPILL: usize = 16;

#[inline(always)]
pub(super) fn store_mixed(units: u16x16, dst: &mut [u8], at: usize) -> usize
    requires dst_length { at + 64 ≤ length dst.old }
    ensures length_bound { (16 ≤ result) × (result ≤ 48) }
    ensures stored { Spills dst.old dst.new at result 16 (encode_utf8_all units) }
{
    let mask = mask_of_classes(units);
    let (first, second) = (mask & 0xFF, mask >> 8 & 0xFF);
    let (third, fourth) = (mask >> 16 & 0xFF, mask >> 24);
    let (lanes, others) = four_bytes(units);
    let (bytes, four, next, five) = encode_twice_four(lanes, first, third);
    let (other, more, last, rest) = encode_twice_four(others, second, fourth);
    store_two(dst, at, bytes, four, other, more);
    store_two(dst, at + (four + more), next, five, last, rest);
    length_of_sixteen(units)
}

/// The bytes after the UTF-8 are read before the stores and written back.
#[inline(always)]
pub(super) fn write_sixteen(units: u16x16, dst: &mut [u8], at: usize) -> usize
    requires dst_length { (length units ≡ 16) × (at + 64 ≤ length dst.old) }
    ensures length_bound { (16 ≤ result) × (result ≤ 48) }
    ensures written { Spills dst.old dst.new at result 0 (encode_utf8_all units) }
{
    let end = at + length_of_sixteen(units);
    let following = u8x16::from_slice(&dst[end..]);
    let written = store_mixed(units, dst, at);
    following.copy_to_slice(&mut dst[end..]);
    written
}

/// The bytes after the UTF-8 are read before the stores and written back.
#[inline(always)]
pub(super) fn write_mixed(units: u16x16, zeros: usize, dst: &mut [u8]) -> usize
    requires dst_length { (length units ≡ 16) × (64 ≤ length dst.old) }
    requires zeros { zeros ≤ 16 }
    ensures count { result + zeros ≡ length (encode_utf8_all units) }
    ensures bound { 16 ≤ result + zeros }
    ensures written { WritesPrefix dst.old dst.new result (take result (encode_utf8_all units)) }
{
    let written = length_of_sixteen(units) - zeros;
    let following = u8x16::from_slice(&dst[written..]);
    write_sixteen(units, dst, 0);
    following.copy_to_slice(&mut dst[written..]);
    written
}

#[inline(always)]
pub(super) fn with_zeros(units: u16x16, first: usize) -> u16x16
    requires { (first ≤ 16) × (length units ≡ 16) }
    ensures { result ≡ take first units ++ drop first (replicate 16 0) }
{
    let places = u16x16::from_array([0, 1, 2, 3, 4, 5, 6, 7, 8, 9, 10, 11, 12, 13, 14, 15]);
    places
        .simd_lt(u16x16::splat(first as u16))
        .select(units, u16x16::splat(0))
}
