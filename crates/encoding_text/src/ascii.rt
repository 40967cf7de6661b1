//! ASCII prefixes of bytes and of UTF-16 code units: their lengths and their copies. A copy leaves the rest of `dst`
//! unchanged.

ghost use Rattle.std.specs.Prelude.{take, length};
ghost use Rattle.std.specs.Str.{IsAscii};
ghost use Rattle.encoding_definitions.specs.Ascii.{IsFirstOther, prefix_length_by, IsIso2022JpAscii};
ghost use Rattle.encoding_definitions.specs.Prefixes.{IsLongestPrefix, WritesPrefix};

use encoding_kernels::simd::copy::{pack, pack_first};
use encoding_kernels::simd::scan::{are_256_below, are_bytes_below, run_len_below};
use encoding_kernels::simd::units::{are_units_below, units_run_len_below};
use encoding_kernels::simd::width::{
    ASCII_END, BASIC_LATIN_END, BLOCK, FOUR, FOUR_BLOCKS, SIXTEEN, STRIDE, UNIT_BLOCK,
};
use std::simd::prelude::*;

pub(crate) mod prefixes;

pub use prefixes::{ascii_to_ascii, ascii_to_basic_latin};

/// The bits that no ASCII byte has: each of the eight bytes is 0x80.
pub const ASCII_MASK: usize = 0x8080_8080_8080_8080;

/// The byte that begins an escape sequence.
const ESCAPE: u8 = 0x1B;

/// A byte that switches to another character set.
const SHIFT_OUT: u8 = 0x0E;

/// The byte that switches back.
const SHIFT_IN: u8 = 0x0F;

/// Returns the first byte that isn't ASCII and its index, or `None` if all bytes are ASCII.
#[inline(always)]
pub fn validate_ascii(bytes: &[u8]) -> Option<(u8, usize)>
    ensures { IsFirstOther bytes.now result }
{
    let (strides, _) = bytes.as_chunks::<STRIDE>();
    if let Some(first) = strides.first() {
        let run = run_len_below::<STRIDE>(first, 0, ASCII_END);
        if run < STRIDE {
            return Some((bytes[run], run));
        }
    }
    let (sixteens, _) = strides.as_chunks::<SIXTEEN>();
    let mut at = 0;
    for sixteen in sixteens {
        if !are_256_below(sixteen.as_flattened(), 0, ASCII_END) {
            break;
        }
        at += FOUR_BLOCKS;
    }
    let (fours, _) = strides.as_chunks::<FOUR>();
    for i in at / BLOCK..fours.len() {
        if !are_bytes_below::<BLOCK>(fours[i].as_flattened(), 0, ASCII_END) {
            break;
        }
        at += BLOCK;
    }
    for i in at / STRIDE..strides.len() {
        let run = run_len_below::<STRIDE>(&strides[i], 0, ASCII_END);
        if run < STRIDE {
            return Some((bytes[at + run], at + run));
        }
        at += STRIDE;
    }
    for i in at..bytes.len() {
        if bytes[i] >= ASCII_END {
            return Some((bytes[i], i));
        }
    }
    None
}

/// Returns the length of the longest ASCII prefix.
#[inline(always)]
pub fn ascii_valid_up_to(bytes: &[u8]) -> usize
    ensures { IsLongestPrefix IsAscii bytes.now result }
{
    let (strides, _) = bytes.as_chunks::<STRIDE>();
    if let Some(first) = strides.first() {
        let run = run_len_below::<STRIDE>(first, 0, ASCII_END);
        if run < STRIDE {
            return run;
        }
    }
    let (sixteens, _) = strides.as_chunks::<SIXTEEN>();
    let mut at = 0;
    for sixteen in sixteens {
        if !are_256_below(sixteen.as_flattened(), 0, ASCII_END) {
            break;
        }
        at += FOUR_BLOCKS;
    }
    let (fours, _) = strides.as_chunks::<FOUR>();
    for i in at / BLOCK..fours.len() {
        if !are_bytes_below::<BLOCK>(fours[i].as_flattened(), 0, ASCII_END) {
            break;
        }
        at += BLOCK;
    }
    for i in at / STRIDE..strides.len() {
        let run = run_len_below::<STRIDE>(&strides[i], 0, ASCII_END);
        if run < STRIDE {
            return at + run;
        }
        at += STRIDE;
    }
    for i in at..bytes.len() {
        if bytes[i] >= ASCII_END {
            return i;
        }
    }
    bytes.len()
}

#[inline(always)]
fn iso_2022_jp_ascii_run(stride: &[u8; STRIDE]) -> usize
    ensures { IsLongestPrefix IsIso2022JpAscii stride.now result }
{
    let bytes = u8x16::from_slice(stride);
    let shifts = bytes.simd_eq(u8x16::splat(SHIFT_OUT)) | bytes.simd_eq(u8x16::splat(SHIFT_IN));
    let beyond = bytes.simd_ge(u8x16::splat(ASCII_END));
    let others = (beyond | bytes.simd_eq(u8x16::splat(ESCAPE)) | shifts).to_bitmask();
    if others == 0 {
        STRIDE
    } else {
        others.trailing_zeros() as usize
    }
}

/// Returns the length of the longest ASCII prefix without an escape byte, 0x1B, or a shift byte, 0x0E or 0x0F. Encoding
/// Standard, section 12.2.1: the bytes that the ISO-2022-JP decoder returns unchanged.
pub fn iso_2022_jp_ascii_valid_up_to(bytes: &[u8]) -> usize
    ensures { IsLongestPrefix IsIso2022JpAscii bytes.now result }
{
    let (strides, _) = bytes.as_chunks::<STRIDE>();
    let mut at = 0;
    for stride in strides {
        let run = iso_2022_jp_ascii_run(stride);
        if run < STRIDE {
            return at + run;
        }
        at += STRIDE;
    }
    for i in at..bytes.len() {
        let byte = bytes[i];
        if byte >= ASCII_END || byte == ESCAPE || byte == SHIFT_OUT || byte == SHIFT_IN {
            return i;
        }
    }
    bytes.len()
}

/// Copies the longest ASCII prefix of UTF-16 code units, each as a byte, up to the shorter of the two lengths. Returns
/// the first code unit within that length that isn't ASCII and its index, or `None`.
#[inline(always)]
pub fn basic_latin_to_ascii(src: &[u16], dst: &mut [u8]) -> Option<(u16, usize)>
    ensures found { IsFirstOther (take (length dst.old) src.now) result }
    ensures copied { let n = prefix_length_by (take (length dst.old) src.now) result in
        WritesPrefix dst.old dst.new n (take n src.now) }
{
    let fitting = &src[..src.len().min(dst.len())];
    let (strides, _) = fitting.as_chunks::<STRIDE>();
    if let Some(first) = strides.first() {
        let run = units_run_len_below::<STRIDE>(first, 0, BASIC_LATIN_END);
        if run < STRIDE {
            pack_first(first, dst, 0, run);
            return Some((fitting[run], run));
        }
    }
    let (fours, _) = strides.as_chunks::<FOUR>();
    let mut at = 0;
    for four in fours {
        let block = four.as_flattened();
        if !are_units_below::<UNIT_BLOCK>(block, 0, BASIC_LATIN_END) {
            break;
        }
        pack::<UNIT_BLOCK>(block, 0, dst, at);
        at += UNIT_BLOCK;
    }
    for i in at / STRIDE..strides.len() {
        let run = units_run_len_below::<STRIDE>(&strides[i], 0, BASIC_LATIN_END);
        if run < STRIDE {
            pack_first(&strides[i], dst, at, run);
            return Some((fitting[at + run], at + run));
        }
        pack::<STRIDE>(&strides[i], 0, dst, at);
        at += STRIDE;
    }
    for i in at..fitting.len() {
        if fitting[i] >= BASIC_LATIN_END {
            return Some((fitting[i], i));
        }
        dst[i] = fitting[i] as u8;
    }
    None
}
