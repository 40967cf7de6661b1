//! UTF-16LE and UTF-16BE, whose code units are two bytes each, by vectors of sixteen code units. `big` says that the
//! more significant byte comes first.

ghost use Rattle.std.specs.Prelude.{◌≡◌, ℕ, List, ◌+◌, ◌-◌, ◌*◌, ◌<◌, ◌≤◌, ◌++◌};
ghost use Rattle.std.specs.Prelude.{IsTrue, length, take, drop, slice_index};
ghost use Rattle.encoding_definitions.specs.Prefixes.{WritesPrefix};
ghost use Rattle.encoding_definitions.specs.Utf16.{AreCodeUnits};
ghost use Rattle.encoding_kernels.specs.Scans.{AllBelow, BelowUpTo};
ghost use Rattle.encoding_kernels.specs.UnitBytes.{bytes_in, units_of};

use crate::simd::copy::{pack, pack_first};
use crate::simd::units::units_run_len_below;
use crate::simd::width::{BASIC_LATIN_END, HALF_STRIDE, LANE_INDICES, STRIDE, UNIT_BLOCK};
use crate::utf16_to_utf8::two_byte::are_ascii;
use std::simd::prelude::*;

/// Says that two bytes make a code unit.
#[inline(always)]
fn are_code_units(big: bool, src: &[u8])
    ensures { AreCodeUnits (units_of big src.now) }
{}

#[inline(always)]
pub(super) fn count_units(big: bool, pairs: &[[u8; 2]]) -> usize
    ensures count { result ≡ length (units_of big (bytes_in pairs.now)) }
    ensures code_units { AreCodeUnits (units_of big (bytes_in pairs.now)) }
{
    are_code_units(big, pairs.as_flattened());
    pairs.len()
}

#[inline(always)]
pub(super) fn skip_units(big: bool, pairs: &[[u8; 2]], at: usize) -> &[[u8; 2]]
    requires { at ≤ length (units_of big (bytes_in pairs.now)) }
    ensures { units_of big (bytes_in result.now)
        ≡ take (length (units_of big (bytes_in pairs.now)) - at)
        (drop at (units_of big (bytes_in pairs.now))) }
{
    &pairs[at..]
}

#[inline(always)]
pub(super) fn first_units(big: bool, pairs: &[[u8; 2]], count: usize) -> &[[u8; 2]]
    requires { count ≤ length (units_of big (bytes_in pairs.now)) }
    ensures { units_of big (bytes_in result.now)
        ≡ take count (units_of big (bytes_in pairs.now)) }
{
    &pairs[..count]
}

#[inline(always)]
pub(super) fn sixteen_units(big: bool, src: &[u8], at: usize) -> u16x16
    requires { 2 * at + 32 ≤ length src.now }
    ensures { result ≡ take 16 (drop at (units_of big src.now)) }
{
    let units = u16x16::from_le_bytes(u8x32::from_slice(&src[2 * at..]));
    if !big {
        return units;
    }
    (units << u16x16::splat(8)) + (units >> u16x16::splat(8))
}

#[inline(always)]
pub(super) fn eight_units(big: bool, src: &[u8], at: usize) -> u16x8
    requires { 2 * at + 16 ≤ length src.now }
    ensures { result ≡ take 8 (drop at (units_of big src.now)) }
{
    let units = u16x8::from_le_bytes(u8x16::from_slice(&src[2 * at..]));
    if !big {
        return units;
    }
    (units << u16x8::splat(8)) + (units >> u16x8::splat(8))
}

#[inline(always)]
pub(super) fn unit_at(big: bool, src: &[u8], at: usize) -> u16
    requires { 2 * at + 2 ≤ length src.now }
    ensures { result ≡ slice_index (units_of big src.now) at }
{
    let first = u16::from(src[2 * at]);
    let second = u16::from(src[2 * at + 1]);
    if big {
        return 0x100 * first + second;
    }
    first + 0x100 * second
}

/// Uses only vectors, since a load of what two stores wrote would stall on store forwarding.
#[inline(always)]
pub(super) fn joined_eights(first: u16x8, last: u16x8, count: usize) -> u16x16
    requires lane_count { (length first ≡ 8) × (length last ≡ 8) }
    requires count { (8 ≤ count) × (count ≤ 16) }
    ensures lane_count { length result ≡ 16 }
    ensures lanes { take count result ≡ first ++ drop (16 - count) last }
{
    let overlap = u8x16::splat((2 * (STRIDE - count)) as u8);
    let places = (u8x16::from_array(LANE_INDICES) + overlap) & u8x16::splat(15);
    let following = u16x8::from_le_bytes(last.to_le_bytes().swizzle_dyn(places));
    first.shuffle(
        following,
        [0, 1, 2, 3, 4, 5, 6, 7, 8, 9, 10, 11, 12, 13, 14, 15],
    )
}

#[inline(always)]
pub(super) fn first_sixteen(big: bool, src: &[u8]) -> u16x16
    ensures { (length result ≡ 16) × (take (length (take 16 (units_of big src.now))) result
        ≡ take 16 (units_of big src.now)) }
{
    let count = src.len() / 2;
    if count >= STRIDE {
        return sixteen_units(big, src, 0);
    }
    if count >= HALF_STRIDE {
        let last = eight_units(big, src, count - HALF_STRIDE);
        return joined_eights(eight_units(big, src, 0), last, count);
    }
    let mut bytes = [0; 2 * STRIDE];
    bytes[..2 * count].copy_from_slice(&src[..2 * count]);
    sixteen_units(big, &bytes, 0)
}

#[inline(always)]
fn are_64_ascii(big: bool, src: &[u8], at: usize) -> bool
    requires { 2 * at + 128 ≤ length src.now }
    ensures { IsTrue result → AllBelow 0x80 (units_of big src.now) at 64 }
{
    let first = sixteen_units(big, src, at);
    let second = sixteen_units(big, src, at + STRIDE);
    let third = sixteen_units(big, src, at + 2 * STRIDE);
    let fourth = sixteen_units(big, src, at + 3 * STRIDE);
    are_ascii((first | second) | (third | fourth))
}

/// One mask finds the end of the prefix, without a branch that depends on the text.
#[inline(always)]
fn copy_ascii_of_sixteen(big: bool, src: &[u8], dst: &mut [u8], at: usize) -> usize
    requires within { (2 * at + 32 ≤ length src.now) × (at + 16 ≤ length dst.old) }
    ensures within { result ≤ 16 }
    ensures ascii { AllBelow 0x80 (units_of big src.now) at result }
    ensures stops { result < 16 → 0x80 ≤ slice_index (units_of big src.now) (at + result) }
    ensures copied { dst.new ≡ take at dst.old
        ++ (take result (drop at (units_of big src.now)) ++ drop (at + result) dst.old) }
{
    let stride = sixteen_units(big, src, at).to_array();
    let run = units_run_len_below::<STRIDE>(&stride, 0, BASIC_LATIN_END);
    if run == STRIDE {
        pack::<STRIDE>(&stride, 0, dst, at);
    } else {
        pack_first(&stride, dst, at, run);
    }
    run
}

/// Takes 32 code units, from which AVX2 packs a whole vector at once.
#[inline(always)]
fn pack_two(first: u16x16, second: u16x16, dst: &mut [u8], at: usize)
    requires within { at + 32 ≤ length dst.old }
    requires ascii { (k : ℕ) → k < 32 → slice_index (first ++ second) k < 0x80 }
    ensures { dst.new ≡ take at dst.old ++ ((first ++ second) ++ drop (at + 32) dst.old) }
{
    let units = first.shuffle(
        second,
        [
            0, 1, 2, 3, 4, 5, 6, 7, 8, 9, 10, 11, 12, 13, 14, 15, 16, 17, 18, 19, 20, 21, 22, 23,
            24, 25, 26, 27, 28, 29, 30, 31,
        ],
    );
    let lower = units & u16x32::splat(0xFF);
    lower.cast::<u8>().copy_to_slice(&mut dst[at..]);
}

/// All are loaded before the first store, so that none is loaded again after a test.
#[inline(always)]
fn pack_64(big: bool, src: &[u8], dst: &mut [u8], at: usize)
    requires within { (2 * at + 128 ≤ length src.now) × (at + 64 ≤ length dst.old) }
    requires ascii { AllBelow 0x80 (units_of big src.now) at 64 }
    ensures { (before : List ℕ)
        → WritesPrefix before dst.old at (take at (units_of big src.now))
        → WritesPrefix before dst.new (at + 64) (take (at + 64) (units_of big src.now)) }
{
    let first = sixteen_units(big, src, at);
    let second = sixteen_units(big, src, at + STRIDE);
    let third = sixteen_units(big, src, at + 2 * STRIDE);
    let fourth = sixteen_units(big, src, at + 3 * STRIDE);
    pack_two(first, second, dst, at);
    pack_two(third, fourth, dst, at + 2 * STRIDE);
}

#[inline(always)]
pub fn copy_ascii_units(big: bool, src: &[u8], dst: &mut [u8]) -> usize
    requires { 2 * length dst.old ≤ length src.now }
    ensures within { result ≤ length dst.old }
    ensures below { BelowUpTo 0x80 (units_of big src.now) result }
    ensures stops { result < length dst.old → 0x80 ≤ slice_index (units_of big src.now) result }
    ensures copied { WritesPrefix dst.old dst.new result (take result (units_of big src.now)) }
{
    // between other characters most prefixes end in the first stride
    if dst.len() >= STRIDE {
        let run = copy_ascii_of_sixteen(big, src, dst, 0);
        if run < STRIDE {
            return run;
        }
    }
    let mut at = 0;
    while dst.len() - at >= UNIT_BLOCK && are_64_ascii(big, src, at) {
        pack_64(big, src, dst, at);
        at += UNIT_BLOCK;
    }
    while dst.len() - at >= STRIDE {
        let run = copy_ascii_of_sixteen(big, src, dst, at);
        if run < STRIDE {
            return at + run;
        }
        // a constant: the next load would wait for `run`, which comes from the mask
        at += STRIDE;
    }
    while at < dst.len() {
        let unit = unit_at(big, src, at);
        if unit >= BASIC_LATIN_END {
            return at;
        }
        dst[at] = unit as u8;
        at += 1;
    }
    at
}
