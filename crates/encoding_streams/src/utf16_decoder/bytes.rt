//! The characters of bytes before which nothing is pending, in UTF-8.

ghost use Rattle.std.specs.Prelude.{[], encode_utf8};
ghost use Rattle.encoding_streams.specs.Utf16Steps.{Advances};

use super::window::{begins_with_ascii, begins_with_surrogate, first_scalar, is_for_resume};
use encoding_kernels::scalar::write_scalar;
use encoding_text::utf_16::{
    ByteOrder, convert_utf16_bytes_to_utf8_up_to_invalid, copy_utf16_bytes_to_ascii,
};
use std::simd::prelude::*;

/// How many code units are looked at for damage.
const NEAR: usize = 8;

/// The most bytes that a character takes.
const LONGEST: usize = 4;

/// The most characters that are converted one by one.
const FEW: usize = 32;

/// From how many bytes on blocks with pairs save more than they cost.
const LONG: usize = 128;

/// Returns whether one of the first nine code units is unpaired, apart from the first if it is a low surrogate.
#[inline(always)]
fn has_near_fault(order: ByteOrder, src: &[u8]) -> bool {
    if src.len() < 2 * NEAR + 2 {
        return false;
    }
    // the vectors have the bytes of UTF-16BE in the other order, and so have these
    let (mask, high, low) = match order {
        ByteOrder::LittleEndian => (0xFC00, 0xD800, 0xDC00),
        ByteOrder::BigEndian => (0x00FC, 0x00D8, 0x00DC),
    };
    let units = u16x8::from_le_bytes(u8x16::from_slice(src)) & u16x8::splat(mask);
    let next = u16x8::from_le_bytes(u8x16::from_slice(&src[2..])) & u16x8::splat(mask);
    (units.simd_eq(u16x8::splat(high)) ^ next.simd_eq(u16x8::splat(low))).any()
}

/// Writes the first character, if it is whole and there is space for any. Returns how many bytes it read and how many
/// it wrote.
#[inline(always)]
fn convert_one(order: ByteOrder, src: &[u8], dst: &mut [u8]) -> (usize, usize)
    ensures { Advances order encode_utf8 [] src.now dst.old dst.new
        result.0 result.1 [] }
{
    if dst.len() < LONGEST {
        return (0, 0);
    }
    let Some((scalar, read)) = first_scalar(order, src) else {
        return (0, 0);
    };
    (read, write_scalar(scalar, dst))
}

/// Converts the first characters one by one, at most `FEW`. Returns how many bytes it read and how many it wrote.
#[inline(never)]
fn convert_few(order: ByteOrder, src: &[u8], dst: &mut [u8]) -> (usize, usize)
    ensures { Advances order encode_utf8 [] src.now dst.old dst.new
        result.0 result.1 [] }
{
    let mut read = 0;
    let mut written = 0;
    let mut left = FEW;
    while left > 0 {
        let (bytes, more) = convert_one(order, &src[read..], &mut dst[written..]);
        read += bytes;
        written += more;
        if bytes == 0 {
            break;
        }
        left -= 1;
    }
    (read, written)
}

/// Converts the first characters: one by one if an unpaired surrogate is near, or a pair begins a short text, since
/// blocks cost more then. Returns how many bytes it read and how many it wrote.
#[inline(always)]
fn convert_some(order: ByteOrder, src: &[u8], dst: &mut [u8]) -> (usize, usize)
    ensures { Advances order encode_utf8 [] src.now dst.old dst.new
        result.0 result.1 [] }
{
    if src.len() < LONG && begins_with_surrogate(order, src) || has_near_fault(order, src) {
        return convert_few(order, src, dst);
    }
    convert_utf16_bytes_to_utf8_up_to_invalid(order, src, dst)
}

/// Converts whole characters from the start of `src`, up to the first that doesn't fit, or before an unpaired surrogate
/// or the end. Returns how many bytes it read and how many it wrote.
///
/// In damaged text most runs are short. If ASCII ends at the damage, no block is tried.
pub(super) fn convert_bytes(order: ByteOrder, src: &[u8], dst: &mut [u8]) -> (usize, usize)
    ensures { Advances order encode_utf8 [] src.now dst.old dst.new
        result.0 result.1 [] }
{
    if !begins_with_ascii(order, src) {
        return convert_some(order, src, dst);
    }
    let ascii = copy_utf16_bytes_to_ascii(order, src, dst);
    let read = 2 * ascii;
    if is_for_resume(order, &src[read..]) {
        return (read, ascii);
    }
    let (more, written) = convert_some(order, &src[read..], &mut dst[ascii..]);
    (read + more, ascii + written)
}
