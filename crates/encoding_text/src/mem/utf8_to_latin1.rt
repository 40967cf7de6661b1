//! Conversion of UTF-8 to Latin1, in which each byte is the scalar value of its character. Infra Standard: isomorphic
//! encode. What follows the first ASCII is out of line, so that ASCII needs few registers. A conversion leaves the rest
//! of `dst` unchanged.

ghost use Rattle.std.specs.Prelude.{◌≡◌, ◌+◌, ◌-◌, ◌<◌, ◌≤◌, ◌⊎◌, take, drop, length, encode_utf8_all, IfSome, IfNone};
ghost use Rattle.std.specs.Str.{chars};
ghost use Rattle.encoding_definitions.specs.Prefixes.{WritesPrefix};
ghost use Rattle.encoding_definitions.specs.Latin1.{IsUtf8Latin1};

use super::latin1::copy_ascii;
use crate::ascii::prefixes::{copy_blocks, write_short_ascii};
use encoding_kernels::latin1::from_utf8::{
    few_with_zeros, latin1_length_of_first, latin1_of, latin1_of_after, write_latin1_of_two,
};
use encoding_kernels::simd::copy::{copy_prefix, write_first};
use encoding_kernels::simd::scan::are_bytes_below;
use encoding_kernels::simd::width::{ASCII_END, BLOCK, STRIDE, TWO_BLOCKS};
use encoding_kernels::tuning::BLOCKS_BEFORE_RETEST;
use std::simd::prelude::*;

/// How many bytes go from UTF-8 to Latin1 at once, after a test for ASCII.
const GROUP: usize = BLOCKS_BEFORE_RETEST * STRIDE;

/// The space that a group needs: the sixteen bytes after it are loaded and stored again.
const GROUP_ROOM: usize = GROUP + STRIDE;

/// Leaves out a last byte that begins a character of two.
#[inline(always)]
fn whole_length<const N: usize>(last: u8) -> usize
    requires { 0 < N }
    ensures { ((result ≡ N - 1) × (0xC0 ≤ last)) ⊎ ((result ≡ N) × (last < 0xC0)) }
{
    if last < 0xC0 { N } else { N - 1 }
}

/// Writes the last sixteen bytes as one block, whose first ones are written again.
#[inline(always)]
fn finish_utf8(src: &[u8], dst: &mut [u8], read: usize, written: usize) -> Option<usize>
    requires left { (16 < length src.now) × (read ≤ length src.now) × (length src.now < read + 16) }
    requires latin1 { IsUtf8Latin1 src.now }
    requires rest { drop read src.now ≡ encode_utf8_all (drop written (chars src.now)) }
    requires written { (written ≤ length dst.old)
        × (take written dst.old ≡ take written (chars src.now)) }
    ensures finished { IfSome result (λ n. WritesPrefix dst.old dst.new n (chars src.now)) }
    ensures full { IfNone result (dst.new ≡ dst.old) }
{
    let last = src.len() - STRIDE;
    let block = u8x16::from_slice(&src[last..]);
    let at = written - latin1_length_of_first(block, read - last);
    if dst.len() - at < STRIDE {
        return None;
    }
    let (bytes, count) = latin1_of_after(u8x16::from_slice(&src[last - 1..]), block);
    write_first(dst, at, bytes, count);
    Some(at + count)
}

/// Ends before 64 bytes of ASCII.
#[inline(always)]
fn convert_utf8_blocks(src: &[u8], dst: &mut [u8], from: usize, to: usize) -> (usize, usize)
    requires latin1 { IsUtf8Latin1 src.now }
    requires within { from ≤ length src.now }
    requires rest { drop from src.now ≡ encode_utf8_all (drop to (chars src.now)) }
    requires written { (to ≤ length dst.old) × (take to dst.old ≡ take to (chars src.now)) }
    ensures within { (from ≤ result.0) × (result.0 ≤ length src.now) }
    ensures onward { to ≤ result.1 }
    ensures rest { drop result.0 src.now ≡ encode_utf8_all (drop result.1 (chars src.now)) }
    ensures written { WritesPrefix dst.old dst.new result.1 (take result.1 (chars src.now)) }
{
    let mut read = from;
    let mut written = to;
    while src.len() - read >= GROUP && dst.len() - written >= GROUP_ROOM {
        if src.len() - read >= BLOCK && are_bytes_below::<BLOCK>(src, read, ASCII_END) {
            return (read, written);
        }
        written += write_latin1_of_two(src, read, dst, written);
        read += whole_length::<GROUP>(src[read + (GROUP - 1)]);
    }
    while src.len() - read >= STRIDE && dst.len() - written >= STRIDE {
        let (bytes, count) = latin1_of(u8x16::from_slice(&src[read..]));
        write_first(dst, written, bytes, count);
        written += count;
        read += whole_length::<STRIDE>(src[read + (STRIDE - 1)]);
    }
    (read, written)
}

#[inline(never)]
fn convert_utf8_turns(src: &[u8], dst: &mut [u8], from: usize, to: usize) -> usize
    requires dst_length { length (chars src.now) ≤ length dst.old }
    requires latin1 { IsUtf8Latin1 src.now }
    requires within { from ≤ length src.now }
    requires rest { drop from src.now ≡ encode_utf8_all (drop to (chars src.now)) }
    requires written { (to ≤ length dst.old) × (take to dst.old ≡ take to (chars src.now)) }
    ensures written { WritesPrefix dst.old dst.new result (chars src.now) }
{
    let mut read = from;
    let mut written = to;
    while read < src.len() {
        let prefix = copy_ascii(&src[read..], &mut dst[written..]);
        read += prefix;
        written += prefix;
        if read == src.len() {
            break;
        }
        dst[written] = (src[read] << 6) | (src[read + 1] & 0x3F);
        let (end, length) = convert_utf8_blocks(src, dst, read + 2, written + 1);
        read = end;
        written = length;
        if src.len() > STRIDE && src.len() - read < STRIDE {
            if let Some(length) = finish_utf8(src, dst, read, written) {
                return length;
            }
        }
    }
    written
}

/// The zeros after the text in its vector are Latin1 too. By an array, since `dst` may have no space for a vector.
#[inline(never)]
fn convert_least_utf8(src: &[u8], dst: &mut [u8]) -> usize
    requires src_length { length src.now < 16 }
    requires dst_length { length (chars src.now) ≤ length dst.old }
    requires latin1 { IsUtf8Latin1 src.now }
    ensures written { WritesPrefix dst.old dst.new result (chars src.now) }
{
    let (bytes, count) = latin1_of(few_with_zeros(src));
    let length = count - (STRIDE - src.len());
    copy_prefix(&bytes.to_array()[..length], dst);
    length
}

/// Starts with blocks, even if ASCII comes first.
#[inline(never)]
fn convert_few_utf8(src: &[u8], dst: &mut [u8]) -> usize
    requires dst_length { length (chars src.now) ≤ length dst.old }
    requires latin1 { IsUtf8Latin1 src.now }
    ensures written { WritesPrefix dst.old dst.new result (chars src.now) }
{
    let (read, written) = convert_utf8_blocks(src, dst, 0, 0);
    if src.len() > STRIDE && read < src.len() && src.len() - read < STRIDE {
        if let Some(length) = finish_utf8(src, dst, read, written) {
            return length;
        }
    }
    convert_utf8_turns(src, dst, read, written)
}

#[inline(never)]
fn convert_long_utf8(src: &[u8], dst: &mut [u8]) -> usize
    requires src_length { 128 < length src.now }
    requires dst_length { length (chars src.now) ≤ length dst.old }
    requires latin1 { IsUtf8Latin1 src.now }
    ensures written { WritesPrefix dst.old dst.new result (chars src.now) }
{
    let ascii = copy_blocks(src, dst);
    if ascii == src.len() {
        return ascii;
    }
    convert_utf8_turns(src, dst, ascii, ascii)
}

/// Writes the scalar value of each character of Latin1 text in UTF-8 as a byte, and returns how many bytes it wrote.
/// `dst` has at least that length, which `latin1_length_from_utf8` returns.
#[inline(always)]
pub fn convert_utf8_to_latin1(src: &[u8], dst: &mut [u8]) -> usize
    requires dst_length { length (chars src.now) ≤ length dst.old }
    requires latin1 { IsUtf8Latin1 src.now }
    ensures written { WritesPrefix dst.old dst.new result (chars src.now) }
{
    if src.len() > TWO_BLOCKS {
        return convert_long_utf8(src, dst);
    }
    if src.len() <= dst.len() && write_short_ascii::<TWO_BLOCKS>(src, dst) {
        return src.len();
    }
    if src.len() < STRIDE {
        return convert_least_utf8(src, dst);
    }
    convert_few_utf8(src, dst)
}

/// Writes the scalar value of each character of Latin1 text in UTF-8 as a byte, and returns how many bytes it wrote.
/// `dst` is at least as long as `src`.
#[tactic(auto, using(encoding_kernels::proofs::LengthLemmas::chars_total))]
pub fn convert_utf8_to_latin1_lossy(src: &[u8], dst: &mut [u8]) -> usize
    requires dst_length { length src.now ≤ length dst.old }
    requires latin1 { IsUtf8Latin1 src.now }
    ensures written { WritesPrefix dst.old dst.new result (chars src.now) }
{
    convert_utf8_to_latin1(src, dst)
}
