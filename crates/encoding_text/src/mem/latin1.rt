//! Conversions of Latin1 to UTF-8 and UTF-16, and of UTF-16 to Latin1. In Latin1 each byte is the scalar value of its
//! character: Infra Standard, isomorphic decode and encode. What follows the first ASCII is out of line, so that ASCII
//! needs few registers. A conversion leaves the rest of `dst` unchanged.

ghost use Rattle.std.specs.Prelude.{◌≡◌, ◌+◌, ◌-◌, ◌*◌, ◌%◌, ◌<◌, ◌≤◌, ℕ, List, [], ◌∷◌, take, length};
ghost use Rattle.std.specs.Prelude.{map, slice_index, encode_utf8, encode_utf8_all, IfSome, IfNone};
ghost use Rattle.std.specs.Str.{IsAscii};
ghost use Rattle.encoding_definitions.specs.Prefixes.{IsLongestFittingPrefix, WritesPrefix};

use crate::ascii::prefixes::{copy_ascii_prefix, copy_blocks, write_short_ascii};
use encoding_kernels::latin1::to_utf8::{
    utf8_length_of_first, write_few_latin1, write_latin1, write_latin1_block,
};
use encoding_kernels::scalar::write_scalar;
use encoding_kernels::simd::copy::{copy_prefix, pack_lower, unpack};
use encoding_kernels::simd::scan::{AllPass, BytesBelow};
use encoding_kernels::simd::width::{
    ASCII_END, BLOCK, HALF_BLOCK, HALF_STRIDE, STRIDE, TWO_BLOCKS,
};
use std::simd::prelude::*;

/// The length in UTF-8 of a character from U+0080 to U+00FF.
const HIGH_LENGTH: usize = 2;

/// Writes each byte as a UTF-16 code unit. `dst` is at least as long as `src`.
pub fn convert_latin1_to_utf16(src: &[u8], dst: &mut [u16])
    requires dst_length { length src.now ≤ length dst.old }
    ensures written { WritesPrefix dst.old dst.new (length src.now) src.now }
{
    let (strides, _) = src.as_chunks::<STRIDE>();
    let mut at = 0;
    for stride in strides {
        unpack::<STRIDE>(stride, 0, dst, at);
        at += STRIDE;
    }
    for i in at..src.len() {
        dst[i] = u16::from(src[i]);
    }
}

#[inline(always)]
pub(crate) fn copy_ascii(src: &[u8], dst: &mut [u8]) -> usize
    ensures within { (result ≤ length src.now) × (result ≤ length dst.old) }
    ensures ascii { IsAscii (take result src.now) }
    ensures stops { result < length src.now → result < length dst.old
        → 0x80 ≤ slice_index src.now result }
    ensures copied { WritesPrefix dst.old dst.new result (take result src.now) }
{
    if !src.is_empty() && src[0] >= ASCII_END {
        return 0;
    }
    copy_ascii_prefix(src, dst)
}

/// Ends before 64 bytes of ASCII, except near the end of `src`, where few blocks are left.
#[inline(always)]
fn convert_latin1_blocks(src: &[u8], dst: &mut [u8]) -> (usize, usize)
    ensures within { result.0 ≤ length src.now }
    ensures written { WritesPrefix dst.old dst.new result.1
        (encode_utf8_all (take result.0 src.now)) }
{
    let ascii = BytesBelow {
        bytes: src,
        bound: ASCII_END,
    };
    let mut read = 0;
    let mut written = 0;
    while src.len() - read >= BLOCK && dst.len() - written >= 2 * BLOCK {
        if AllPass::<HALF_BLOCK, BLOCK>::pass(&ascii, read) {
            return (read, written);
        }
        written += write_latin1_block(src, read, dst, written);
        read += BLOCK;
    }
    while src.len() - read >= STRIDE && dst.len() - written >= 2 * STRIDE {
        written += write_latin1(u8x16::from_slice(&src[read..]), dst, written);
        read += STRIDE;
    }
    (read, written)
}

/// Writes the last sixteen bytes as one block, whose first ones are written again.
#[inline(always)]
fn finish_latin1(src: &[u8], dst: &mut [u8], read: usize, written: usize) -> Option<usize>
    requires left { (16 ≤ length src.now) × (read ≤ length src.now) × (length src.now ≤ read + 16) }
    requires counted { (written ≡ length (encode_utf8_all (take read src.now)))
        × (written ≤ length dst.old) }
    ensures finished { IfSome result (λ n. (old : List ℕ)
        → WritesPrefix old dst.old written (encode_utf8_all (take read src.now))
        → WritesPrefix old dst.new n (encode_utf8_all src.now)) }
    ensures full { IfNone result (dst.new ≡ dst.old) }
{
    let last = src.len() - STRIDE;
    let block = u8x16::from_slice(&src[last..]);
    let at = written - utf8_length_of_first(block, read - last);
    if dst.len() - at < 2 * STRIDE {
        return None;
    }
    Some(at + write_latin1(block, dst, at))
}

#[inline(never)]
fn convert_latin1_turns(src: &[u8], dst: &mut [u8], from: usize, to: usize) -> (usize, usize)
    requires read { (from ≤ length src.now)
        × (to ≡ length (encode_utf8_all (take from src.now))) }
    requires written { (to ≤ length dst.old)
        × (take to dst.old ≡ encode_utf8_all (take from src.now)) }
    ensures prefix { IsLongestFittingPrefix (λ b. b ∷ []) encode_utf8 src.now
        (length dst.old) result.0
        (encode_utf8_all (take result.0 src.now)) }
    ensures written { WritesPrefix dst.old dst.new result.1
        (encode_utf8_all (take result.0 src.now)) }
    ensures onward { to ≤ result.1 }
{
    let mut read = from;
    let mut written = to;
    while read < src.len() {
        let prefix = copy_ascii(&src[read..], &mut dst[written..]);
        read += prefix;
        written += prefix;
        if read == src.len() || dst.len() - written < HIGH_LENGTH {
            break;
        }
        dst[written] = 0xC0 | (src[read] >> 6);
        dst[written + 1] = 0x80 | (src[read] & 0x3F);
        read += 1;
        written += HIGH_LENGTH;
        let (bytes, extra) = convert_latin1_blocks(&src[read..], &mut dst[written..]);
        read += bytes;
        written += extra;
        if src.len() >= STRIDE && src.len() - read < STRIDE {
            match finish_latin1(src, dst, read, written) {
                Some(length) => return (src.len(), length),
                None => continue,
            }
        }
    }
    (read, written)
}

/// By arrays, since `dst` may have no space for a vector.
#[inline(never)]
fn write_least_latin1(src: &[u8], dst: &mut [u8]) -> usize
    requires src_length { length src.now < 8 }
    requires dst_length { 2 * length src.now ≤ length dst.old }
    ensures written { WritesPrefix dst.old dst.new result (encode_utf8_all src.now) }
{
    let mut bytes = [0; STRIDE];
    copy_prefix(src, &mut bytes);
    let block = u8x16::from_slice(&bytes);
    let mut text = [0; 2 * STRIDE];
    write_latin1(block, &mut text, 0);
    let length = utf8_length_of_first(block, src.len());
    copy_prefix(&text[..length], dst);
    length
}

/// Starts with blocks, even if ASCII comes first.
#[inline(never)]
fn convert_few_latin1(src: &[u8], dst: &mut [u8]) -> (usize, usize)
    ensures prefix { IsLongestFittingPrefix (λ b. b ∷ []) encode_utf8 src.now
        (length dst.old) result.0
        (encode_utf8_all (take result.0 src.now)) }
    ensures written { WritesPrefix dst.old dst.new result.1
        (encode_utf8_all (take result.0 src.now)) }
{
    if src.len() < STRIDE {
        if dst.len() / 2 < src.len() {
            return convert_latin1_turns(src, dst, 0, 0);
        }
        if src.len() == 1 {
            return (1, write_scalar(u32::from(src[0]), dst));
        }
        if src.len() < HALF_STRIDE {
            return (src.len(), write_least_latin1(src, dst));
        }
        return (src.len(), write_few_latin1(src, dst));
    }
    let (read, written) = convert_latin1_blocks(src, dst);
    if read == src.len() {
        return (read, written);
    }
    if src.len() - read < STRIDE {
        if let Some(length) = finish_latin1(src, dst, read, written) {
            return (src.len(), length);
        }
    }
    convert_latin1_turns(src, dst, read, written)
}

#[inline(never)]
fn convert_long_latin1(src: &[u8], dst: &mut [u8]) -> (usize, usize)
    requires src_length { 128 < length src.now }
    ensures prefix { IsLongestFittingPrefix (λ b. b ∷ []) encode_utf8 src.now
        (length dst.old) result.0
        (encode_utf8_all (take result.0 src.now)) }
    ensures written { WritesPrefix dst.old dst.new result.1
        (encode_utf8_all (take result.0 src.now)) }
{
    let ascii = copy_blocks(src, dst);
    if ascii == src.len() {
        return (ascii, ascii);
    }
    convert_latin1_turns(src, dst, ascii, ascii)
}

/// Writes the UTF-8 of the longest prefix of `src` whose UTF-8 fits into `dst`. Returns how many bytes it read and how
/// many it wrote. Encoding Standard, `encodeInto`.
#[inline(always)]
pub fn convert_latin1_to_utf8_partial(src: &[u8], dst: &mut [u8]) -> (usize, usize)
    ensures prefix { IsLongestFittingPrefix (λ b. b ∷ []) encode_utf8 src.now
        (length dst.old) result.0
        (encode_utf8_all (take result.0 src.now)) }
    ensures written { WritesPrefix dst.old dst.new result.1
        (encode_utf8_all (take result.0 src.now)) }
{
    if src.len() > TWO_BLOCKS {
        return convert_long_latin1(src, dst);
    }
    if src.len() <= dst.len() && write_short_ascii::<TWO_BLOCKS>(src, dst) {
        return (src.len(), src.len());
    }
    convert_few_latin1(src, dst)
}

/// Writes the UTF-8 of each byte as a character, and returns how many bytes it wrote. `dst` is at least twice as long
/// as `src`.
pub fn convert_latin1_to_utf8(src: &[u8], dst: &mut [u8]) -> usize
    requires dst_length { 2 * length src.now ≤ length dst.old }
    ensures written { WritesPrefix dst.old dst.new result (encode_utf8_all src.now) }
{
    let (_, written) = convert_latin1_to_utf8_partial(src, dst);
    written
}

/// Writes the low eight bits of each UTF-16 code unit as a byte. `dst` is at least as long as `src`.
pub fn convert_utf16_to_latin1_lossy(src: &[u16], dst: &mut [u8])
    requires dst_length { length src.now ≤ length dst.old }
    ensures written { WritesPrefix dst.old dst.new (length src.now)
        (map (λ unit. unit % 0x100) src.now) }
{
    let (strides, _) = src.as_chunks::<STRIDE>();
    let mut at = 0;
    for stride in strides {
        pack_lower::<STRIDE>(stride, dst, at);
        at += STRIDE;
    }
    for i in at..src.len() {
        dst[i] = (src[i] & 0xFF) as u8;
    }
}
