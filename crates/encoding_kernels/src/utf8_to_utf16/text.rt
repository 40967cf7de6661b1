//! UTF-16 of well-formed UTF-8, by groups of 64 bytes, and by strides of sixteen in a short text and at the end of a
//! longer one. A code unit is computed for each byte as if it ended there, and those that do are moved together.
//! After the UTF-16 of a whole text, `dst` is unchanged. The caller converts runs of ASCII.

ghost use Rattle.std.specs.Prelude.{◌<◌, ◌≤◌, length, ℕ, ◌+◌, ◌*◌, IsTrue, slice_index};
ghost use Rattle.std.specs.List.{flat_map};
ghost use Rattle.std.specs.Char.Escape.{encode_utf16};
ghost use Rattle.std.specs.Str.{IsUtf8, chars};
ghost use Rattle.encoding_definitions.specs.Prefixes.{WritesPrefix};
ghost use Rattle.encoding_kernels.specs.EndingUnits.{WritesUtf16, units_in, BeginsThree};
ghost use Rattle.encoding_kernels.specs.Scans.{BelowUpTo};

use crate::scalar::sequence_length;
use crate::simd::scan::{BytesBelow, are_bytes_below, pass_short, run_before};
use crate::simd::width::{ASCII_END, BLOCK, FOUR, HALF_BLOCK, STRIDE, TWO_BLOCKS};
use crate::utf8_to_utf16::strides::{
    FOUR_BYTES, STRIDE_AND_BEFORE, is_below, whole_end, write_block, write_character, write_stride,
    write_strides, write_tail,
};
use std::simd::prelude::*;

/// The least length of a text whose first 64 bytes may be converted at once: the units that these store after their own
/// are overwritten by those of the other bytes.
const GROUP_OF_TEXT: usize = BLOCK + 24;

/// The length of eight characters of three bytes.
const EIGHT_TRIPLES_LENGTH: usize = 24;

/// The number of these characters, and of their code units.
const EIGHT: usize = 8;

/// The bits that show whether a byte begins three, at every third of the first sixteen bytes.
const LEAD_BITS: [u8; 16] = [
    0xF0, 0, 0, 0xF0, 0, 0, 0xF0, 0, 0, 0xF0, 0, 0, 0xF0, 0, 0, 0xF0,
];

/// Their values if it does.
const LEAD_VALUES: [u8; 16] = [
    0xE0, 0, 0, 0xE0, 0, 0, 0xE0, 0, 0, 0xE0, 0, 0, 0xE0, 0, 0, 0xE0,
];

/// The bits that show whether a byte begins three, at every third of the sixteen bytes from index 8 on.
const LATER_BITS: [u8; 16] = [
    0, 0xF0, 0, 0, 0xF0, 0, 0, 0xF0, 0, 0, 0xF0, 0, 0, 0xF0, 0, 0,
];

/// The values of these bits if it does.
const LATER_VALUES: [u8; 16] = [
    0, 0xE0, 0, 0, 0xE0, 0, 0, 0xE0, 0, 0, 0xE0, 0, 0, 0xE0, 0, 0,
];

#[inline(always)]
fn begins_triples(src: &[u8]) -> bool
    requires { 24 ≤ length src.now }
    ensures { IsTrue result → (k : ℕ) → k < 8 → BeginsThree (slice_index src.now (3 * k)) }
{
    let first = u8x16::from_slice(src) & u8x16::from_array(LEAD_BITS);
    let later = u8x16::from_slice(&src[8..]) & u8x16::from_array(LATER_BITS);
    let others = first.simd_ne(u8x16::from_array(LEAD_VALUES))
        | later.simd_ne(u8x16::from_array(LATER_VALUES));
    !others.any()
}

#[inline(always)]
fn leading_triples(src: &[u8]) -> usize
    requires { 24 ≤ length src.now }
    ensures within { result ≤ 8 }
    ensures triples { (k : ℕ) → k < result → BeginsThree (slice_index src.now (3 * k)) }
    ensures stops { result < 8 → BeginsThree (slice_index src.now (3 * result)) → ⊥ }
{
    let first = u8x16::from_slice(src) & u8x16::from_array(LEAD_BITS);
    let later = u8x16::from_slice(&src[8..]) & u8x16::from_array(LATER_BITS);
    let others = first.simd_ne(u8x16::from_array(LEAD_VALUES)).to_bitmask();
    let others_later = later.simd_ne(u8x16::from_array(LATER_VALUES)).to_bitmask();
    let before = run_before::<16>(others);
    let before_later = run_before::<16>(others_later);
    let end = if before < 16 {
        before
    } else {
        8 + before_later
    };
    end / 3
}

/// Stores eight code units.
#[inline(always)]
fn write_triples(src: &[u8], count: usize, dst: &mut [u16])
    requires dst_length { (24 ≤ length src.now) × (8 ≤ length dst.old) }
    requires text { IsUtf8 src.now }
    requires triples { (count ≤ 8)
        × ((k : ℕ) → k < count → BeginsThree (slice_index src.now (3 * k))) }
    ensures { WritesUtf16 src.now dst.old dst.new (3 * count) count 8 }
{
    let six = u16x8::splat(0x3F);
    let first = u8x16::from_slice(src);
    let later = u8x16::from_slice(&src[8..]);
    let leads = first
        .shuffle::<8>(later, [0, 3, 6, 9, 12, 15, 26, 29])
        .cast::<u16>();
    let second = first
        .shuffle::<8>(later, [1, 4, 7, 10, 13, 24, 27, 30])
        .cast::<u16>();
    let third = first
        .shuffle::<8>(later, [2, 5, 8, 11, 14, 25, 28, 31])
        .cast::<u16>();
    let units = leads * u16x8::splat(0x1000) + ((second & six) * u16x8::splat(64) + (third & six));
    units.copy_to_slice(dst);
}

/// Takes the whole characters in the first 64 bytes.
#[inline(always)]
fn write_group<const N: usize>(src: &[u8], dst: &mut [u16]) -> (usize, usize)
    requires dst_length { (88 ≤ length src.now) × (length src.now ≤ length dst.old) }
    requires text { IsUtf8 src.now }
    requires short { N < 4 → BelowUpTo 0xF0 src.now 64 }
    ensures progress { 0 < result.0 }
    ensures written { WritesUtf16 src.now dst.old dst.new result.0 result.1 (units_in src.now) }
{
    let end = whole_end::<BLOCK, N>(src);
    let mut written = write_stride::<N, 0, 8, STRIDE>(src, 0, 0, STRIDE, dst);
    for stride in 1..FOUR - 1 {
        let at = STRIDE * stride;
        written += write_stride::<N, 3, 8, STRIDE>(src, at, 0, STRIDE, &mut dst[written..]);
    }
    let last = BLOCK - STRIDE;
    // if no character has four bytes, no unit ends in the one that is cut
    let to = if N < 4 { STRIDE } else { end - last };
    (
        end,
        written + write_stride::<N, 3, 8, STRIDE>(src, last, 0, to, &mut dst[written..]),
    )
}

/// An emoji often follows a mark, and text follows both.
#[inline(always)]
fn write_mark_and_character(src: &[u8], dst: &mut [u16]) -> (usize, usize)
    requires dst_length { (1 < length src.now) × (length src.now ≤ length dst.old) }
    requires text { IsUtf8 src.now }
    ensures progress { 0 < result.0 }
    ensures written { WritesUtf16 src.now dst.old dst.new result.0 result.1 (units_in src.now) }
{
    if src[0] >= ASCII_END {
        return write_character(src, dst);
    }
    dst[0] = u16::from(src[0]);
    let (bytes, units) = write_character(&src[1..], &mut dst[1..]);
    (1 + bytes, 1 + units)
}

/// If characters of three bytes come first, then one of four, perhaps after ASCII, and the last 32 bytes have
/// no more of four, only those are written. Out of line, since few texts have characters of four bytes.
#[inline(never)]
fn write_with_pairs(src: &[u8], dst: &mut [u16]) -> (usize, usize)
    requires dst_length { (88 ≤ length src.now) × (length src.now ≤ length dst.old) }
    requires text { IsUtf8 src.now }
    ensures progress { 0 < result.0 }
    ensures written { WritesUtf16 src.now dst.old dst.new result.0 result.1 (units_in src.now) }
{
    if src[0] & 0xF0 == 0xE0 && are_bytes_below::<HALF_BLOCK>(src, HALF_BLOCK, FOUR_BYTES) {
        let count = leading_triples(src);
        let read = 3 * count;
        if src[read + usize::from(src[read] < ASCII_END)] >= FOUR_BYTES {
            write_triples(src, count, dst);
            let (bytes, units) = write_mark_and_character(&src[read..], &mut dst[count..]);
            return (read + bytes, count + units);
        }
    }
    write_group::<4>(src, dst)
}

/// Stops before 48 bytes of ASCII. A turn takes eight characters of three bytes each, or those in the first
/// 64 bytes, or those in the first sixteen if the last 48 are ASCII. Out of line, since it needs many
/// registers.
#[inline(never)]
fn convert_groups(src: &[u8], dst: &mut [u16]) -> (usize, usize)
    requires dst_length { (88 ≤ length src.now) × (length src.now ≤ length dst.old) }
    requires text { IsUtf8 src.now }
    ensures progress { 0 < result.0 }
    ensures written { WritesUtf16 src.now dst.old dst.new result.0 result.1 (units_in src.now) }
{
    let mut read = 0;
    let mut written = 0;
    while src.len() - read >= GROUP_OF_TEXT {
        let text = &src[read..];
        if begins_triples(text) {
            write_triples(text, EIGHT, &mut dst[written..]);
            read += EIGHT_TRIPLES_LENGTH;
            written += EIGHT;
            continue;
        }
        let first = u8x16::from_slice(text);
        let second = u8x16::from_slice(&text[STRIDE..]);
        let third = u8x16::from_slice(&text[2 * STRIDE..]);
        let fourth = u8x16::from_slice(&text[3 * STRIDE..]);
        let rest = second.simd_max(third).simd_max(fourth);
        let is_short = is_below(first.simd_max(rest), FOUR_BYTES);
        let before_ascii = is_below(rest, ASCII_END);
        if !is_short {
            let (bytes, units) = write_with_pairs(text, &mut dst[written..]);
            read += bytes;
            written += units;
            continue;
        }
        if before_ascii {
            written += write_stride::<3, 0, 8, STRIDE>(text, 0, 0, STRIDE, &mut dst[written..]);
            return (read + STRIDE, written);
        }
        let (bytes, units) = write_group::<3>(text, &mut dst[written..]);
        read += bytes;
        written += units;
    }
    (read, written)
}

/// Runs of characters of three bytes come first. Then each code unit is computed, even if it is ASCII.
pub fn convert_short(src: &[u8], dst: &mut [u16]) -> usize
    requires src_length { length src.now ≤ 128 }
    requires dst_length { length src.now ≤ length dst.old }
    requires text { IsUtf8 src.now }
    ensures { WritesPrefix dst.old dst.new result (flat_map encode_utf16 (chars src.now)) }
{
    let mut read = 0;
    let mut written = 0;
    while src.len() - read >= EIGHT_TRIPLES_LENGTH
        && src[read] >= 0xE0
        && begins_triples(&src[read..])
    {
        write_triples(&src[read..], EIGHT, &mut dst[written..]);
        read += EIGHT_TRIPLES_LENGTH;
        written += EIGHT;
    }
    if src.len() - read < STRIDE_AND_BEFORE {
        return written + write_tail(&src[read..], &mut dst[written..]);
    }
    let (bytes, bound) = (&src[read..], FOUR_BYTES);
    if pass_short::<TWO_BLOCKS, _>(&BytesBelow { bytes, bound }, bytes.len()) {
        return written + write_strides::<3>(&src[read..], &mut dst[written..]);
    }
    written + write_strides::<4>(&src[read..], &mut dst[written..])
}

/// A first character before sixteen bytes of ASCII is written by itself, since a group would compute code
/// units of ASCII. A block takes a first character of four bytes if ASCII follows the block, since emoji
/// often end a sentence.
#[inline(always)]
pub fn convert_valid_utf8_to_utf16(src: &[u8], dst: &mut [u16]) -> (usize, usize)
    requires dst_length { (0 < length src.now) × (length src.now ≤ length dst.old) }
    requires text { IsUtf8 src.now }
    ensures progress { 0 < result.0 }
    ensures written { WritesUtf16 src.now dst.old dst.new result.0 result.1 (units_in src.now) }
{
    if src.len() > BLOCK && are_bytes_below::<STRIDE>(src, sequence_length(src[0]), ASCII_END) {
        return write_character(src, dst);
    }
    if src.len() < GROUP_OF_TEXT {
        return (src.len(), convert_short(src, dst));
    }
    if src[0] >= FOUR_BYTES && src[STRIDE] < ASCII_END {
        return write_block(src, dst);
    }
    convert_groups(src, dst)
}
