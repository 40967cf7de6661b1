//! UTF-16 to UTF-8, into a destination of any length. What follows the first ASCII is out of line, so that ASCII needs
//! few registers. A conversion leaves the rest of `dst` unchanged.
ghost use Rattle.std.specs.Prelude.{◌≡◌, ◌+◌, ◌<◌, ◌≤◌, ◌⊎◌, ◌-◌, ◌↔◌, length, take};
ghost use Rattle.std.specs.Prelude.{slice_index, IsTrue, ◌*◌, IsUtf8, encode_utf8_all};
ghost use Rattle.std.specs.Char.Utf16.{utf16_lossy_chars};
ghost use Rattle.std.specs.Str.{IsAscii};
ghost use Rattle.encoding_definitions.specs.Prefixes.{WritesPrefix};
ghost use Rattle.encoding_definitions.specs.Utf16.{IsHighSurrogate, IsLowSurrogate, IsUtf8OfPrefix};
ghost use Rattle.encoding_definitions.specs.Utf16.{IsUtf8OfLongestPrefix, IsUtf8OfUnits};

use crate::ascii;
use crate::ascii::prefixes::{pack_blocks, write_short_ascii_as_bytes};
use encoding_kernels::scalar::{
    is_high_surrogate, is_low_surrogate, utf8_length, utf16_length, write_scalar,
};
use encoding_kernels::simd::width::{BASIC_LATIN_END, HALF_STRIDE, UNIT_BLOCK};
use encoding_kernels::utf16::source::Units;
use encoding_kernels::utf16_to_utf8::tail::scalar_at;
use encoding_kernels::utf16_to_utf8::text::{convert_blocks, convert_paired_blocks};

/// The most bytes that a character has in UTF-8.
const LONGEST: usize = 4;

/// Text of other scripts seldom begins with ASCII, and then no vector is tested.
#[inline(always)]
fn begins_with_ascii(src: &[u16]) -> bool
    ensures { IsTrue result ↔ ((0 < length src.now) × (slice_index src.now 0 < 0x80)) }
{
    !src.is_empty() && src[0] < BASIC_LATIN_END
}

#[inline(always)]
fn copy_ascii(src: &[u16], dst: &mut [u8]) -> usize
    ensures within { (result ≤ length src.now) × (result ≤ length dst.old - 3) }
    ensures ascii { IsAscii (take result src.now) }
    ensures stops { result < length src.now → result < length dst.old - 3
        → 0x80 ≤ slice_index src.now result }
    ensures copied { WritesPrefix dst.old dst.new result (take result src.now) }
{
    if !begins_with_ascii(src) {
        return 0;
    }
    let room = dst.len().saturating_sub(LONGEST - 1);
    match ascii::basic_latin_to_ascii(src, &mut dst[..room]) {
        Some((_, place)) => place,
        None => src.len().min(room),
    }
}

/// Copies leading ASCII and returns its length. Copies nothing unless `dst` has three bytes more than `src` has units.
/// Up to 64 units are copied whole or not at all, more by blocks of 64.
#[inline(always)]
fn copy_first_ascii(src: &[u16], dst: &mut [u8]) -> usize
    ensures within { result ≤ length src.now }
    ensures prefix { IsUtf8OfPrefix src.now result (take result dst.new) }
    ensures copied { WritesPrefix dst.old dst.new result (take result dst.new) }
{
    if !begins_with_ascii(src) || src.len() > dst.len().saturating_sub(LONGEST - 1) {
        return 0;
    }
    if src.len() > UNIT_BLOCK {
        return pack_blocks(src, dst);
    }
    if write_short_ascii_as_bytes::<UNIT_BLOCK>(src, dst) {
        return src.len();
    }
    0
}

#[inline(always)]
fn is_pair(src: &[u16], at: usize) -> bool
    ensures { IsTrue result ↔ ((at + 1 < length src.now) × IsHighSurrogate (slice_index src.now at)
        × IsLowSurrogate (slice_index src.now (at + 1))) }
{
    at < src.len()
        && at + 1 < src.len()
        && is_high_surrogate(src[at])
        && is_low_surrogate(src[at + 1])
}

/// The third result says whether to go on at once. It is false if a single character stopped the blocks, or the end of
/// `src` or `dst` is near.
#[inline(always)]
fn convert_prefix_and_blocks(src: &[u16], dst: &mut [u8]) -> (usize, usize, bool)
    ensures prefix { IsUtf8OfPrefix src.now result.0 (take result.1 dst.new) }
    ensures unchanged_after { WritesPrefix dst.old dst.new result.1 (take result.1 dst.new) }
    ensures within { result.0 ≤ length src.now }
    ensures progress { IsTrue result.2 → 0 < result.0 }
{
    let prefix = copy_ascii(src, dst);
    if prefix == src.len() {
        return (prefix, prefix, false);
    }
    let following = Units {
        src: &src[prefix..],
    };
    let (units, bytes) = convert_blocks::<_, false>(following, &mut dst[prefix..]);
    let read = prefix + units;
    let written = prefix + bytes;
    if units > 0 && read < src.len() && src[read] < BASIC_LATIN_END {
        return (read, written, true);
    }
    if !is_pair(src, read) {
        return (read, written, false);
    }
    let left = Units { src: &src[read..] };
    let (paired, extra) = convert_paired_blocks(left, &mut dst[written..]);
    (read + paired, written + extra, paired > 0)
}

/// Fewer than eight units are no block, so all of them are converted one at a time.
#[inline(always)]
fn characters_before_retry(left: usize, others: usize) -> usize
    ensures { 0 < others → 0 < result }
{
    if left < HALF_STRIDE {
        HALF_STRIDE
    } else {
        others
    }
}

#[inline(never)]
fn convert_after_ascii(src: &[u16], dst: &mut [u8], ascii: usize) -> (usize, usize)
    requires within { ascii ≤ length src.now }
    requires start { IsUtf8OfPrefix src.now ascii (take ascii dst.old) }
    requires written { WritesPrefix dst.old dst.old ascii (take ascii dst.old) }
    ensures prefix { IsUtf8OfPrefix src.now result.0 (take result.1 dst.new) }
    ensures unchanged_after { WritesPrefix dst.old dst.new result.1 (take result.1 dst.new) }
    ensures within { result.0 ≤ length src.now }
    ensures filled { (result.0 ≡ length src.now) ⊎ (length dst.old < result.1 + 4) }
    ensures after { ascii ≤ result.1 }
{
    let mut read = ascii;
    let mut written = ascii;
    let mut singles = characters_before_retry(src.len() - read, 0);
    let end = dst.len().saturating_sub(LONGEST - 1);
    while read < src.len() && written < end {
        if singles == 0 {
            let (units, bytes, goes_on) = convert_prefix_and_blocks(
                &src[read..],
                &mut dst[written..],
            );
            read += units;
            written += bytes;
            if !goes_on {
                singles = characters_before_retry(src.len() - read, 1);
            }
        } else {
            let scalar = scalar_at(Units { src }, read);
            written += write_scalar(scalar, &mut dst[written..]);
            read += utf16_length(scalar);
            singles -= 1;
        }
    }
    (read, written)
}

/// Converts the first characters of `src` from UTF-16 to UTF-8, while at least four bytes of `dst` are free. Returns
/// how many code units it read and how many bytes it wrote. An unpaired surrogate becomes U+FFFD (Unicode Standard,
/// section 3.9, UTF-16).
///
/// Either all of `src` is read, or at most three bytes are free, which `convert_utf16_to_utf8_partial_tail` then fills.
pub fn convert_utf16_to_utf8_partial_inner(src: &[u16], dst: &mut [u8]) -> (usize, usize)
    ensures prefix { IsUtf8OfPrefix src.now result.0 (take result.1 dst.new) }
    ensures unchanged_after { WritesPrefix dst.old dst.new result.1 (take result.1 dst.new) }
    ensures within { result.0 ≤ length src.now }
    ensures filled { (result.0 ≡ length src.now) ⊎ (length dst.old < result.1 + 4) }
{
    let ascii = copy_first_ascii(src, dst);
    if ascii == src.len() {
        return (ascii, ascii);
    }
    convert_after_ascii(src, dst, ascii)
}

/// Converts the first characters of `src` from UTF-16 to UTF-8, as many as fit into the at most three bytes of `dst`.
/// Returns how many code units it read and how many bytes it wrote. An unpaired surrogate becomes U+FFFD. `src` isn't
/// empty.
pub fn convert_utf16_to_utf8_partial_tail(src: &[u16], dst: &mut [u8]) -> (usize, usize)
    requires not_empty { 0 < length src.now }
    requires at_most_three { length dst.old ≤ 3 }
    ensures longest { IsUtf8OfLongestPrefix src.now (length dst.old) result.0
        (take result.1 dst.new) }
    ensures within { result.0 ≤ length src.now }
    ensures unchanged_after { WritesPrefix dst.old dst.new result.1 (take result.1 dst.new) }
{
    let mut read = 0;
    let mut written = 0;
    while read < src.len() {
        let scalar = scalar_at(Units { src }, read);
        if utf8_length(scalar) > dst.len() - written {
            break;
        }
        written += write_scalar(scalar, &mut dst[written..]);
        read += utf16_length(scalar);
    }
    (read, written)
}

/// Converts the first characters of `src` from UTF-16 to UTF-8, as many as fit into `dst`. Returns how many code units
/// it read and how many bytes it wrote. Encoding Standard, `encodeInto`.
///
/// An unpaired surrogate becomes U+FFFD, even at the end of `src`: no surrogate is kept for the next call. No character
/// is written in part.
pub fn convert_utf16_to_utf8_partial(src: &[u16], dst: &mut [u8]) -> (usize, usize)
    ensures longest { IsUtf8OfLongestPrefix src.now (length dst.old) result.0
        (take result.1 dst.new) }
    ensures text { IsUtf8 (take result.1 dst.new) }
    ensures within { result.0 ≤ length src.now }
    ensures unchanged_after { WritesPrefix dst.old dst.new result.1 (take result.1 dst.new) }
{
    let (read, written) = convert_utf16_to_utf8_partial_inner(src, dst);
    if read == src.len() {
        return (read, written);
    }
    let (more, extra) = convert_utf16_to_utf8_partial_tail(&src[read..], &mut dst[written..]);
    (read + more, written + extra)
}

/// Converts all of `src` from UTF-16 to UTF-8, and returns how many bytes it wrote. `dst` has at least three bytes for
/// each code unit of `src`.
///
/// An unpaired surrogate becomes U+FFFD. The rest of `dst` is unchanged.
pub fn convert_utf16_to_utf8(src: &[u16], dst: &mut [u8]) -> usize
    requires dst_length { 3 * length src.now ≤ length dst.old }
    ensures all { IsUtf8OfUnits src.now (take result dst.new) }
    ensures text { IsUtf8 (take result dst.new) }
    ensures lossy { take result dst.new ≡ encode_utf8_all (utf16_lossy_chars src.now) }
    ensures unchanged_after { WritesPrefix dst.old dst.new result (take result dst.new) }
{
    let (_, written) = convert_utf16_to_utf8_partial(src, dst);
    written
}
