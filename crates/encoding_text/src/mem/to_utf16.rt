//! From UTF-8 to UTF-16, whole buffers. What follows the first ASCII is out of line, so that ASCII needs few registers.
//! A conversion leaves the rest of `dst` unchanged.

ghost use Rattle.std.specs.Prelude.{◌≡◌, ℕ, ◌+◌, ◌<◌, ◌≤◌, ◌↔◌, List, length, IfSome, IsSome};
ghost use Rattle.std.specs.List.{flat_map};
ghost use Rattle.std.specs.Char.Escape.{encode_utf16};
ghost use Rattle.std.specs.Str.{IsAscii, IsUtf8, chars};
ghost use Rattle.encoding_definitions.specs.Parts.{Part, ArePartsOf, BeginsWithNoCharacter, lossy_utf16};
ghost use Rattle.encoding_definitions.specs.Prefixes.{WritesPrefix};
ghost use Rattle.encoding_definitions.specs.Converting.{WritesText};
ghost use Rattle.encoding_kernels.specs.Scans.{AllBelow};
ghost use Rattle.encoding_text.specs.Steps.{ConvertsSome};

use crate::ascii::prefixes::{unpack_ascii_prefix, unpack_blocks, write_short_ascii_as_units};
use crate::decoder::replacing::malformed_length;
use crate::utf_8::{convert_beyond_ascii, convert_text, convert_utf8_to_utf16_up_to_invalid};
use encoding_kernels::lengths::{BLOCK_OF_TEXT, SHORT};
use encoding_kernels::scalar::REPLACEMENT_UNIT;
use encoding_kernels::simd::width::ASCII_END;
use encoding_kernels::utf8_to_utf16::text::convert_short;

#[inline(never)]
fn convert_malformed(src: &[u8], dst: &mut [u16]) -> usize
    requires no_character { BeginsWithNoCharacter src.now }
    requires dst_length { length src.now < length dst.old }
    ensures { (parts : List Part) × ArePartsOf src.now parts × WritesPrefix dst.old dst.new result
        (lossy_utf16 parts) }
{
    let mut read = 0;
    let mut written = 0;
    while let Some(length) = malformed_length(&src[read..]) {
        read += length;
        dst[written] = REPLACEMENT_UNIT;
        written += 1;
        let (bytes, units) = convert_utf8_to_utf16_up_to_invalid(&src[read..], &mut dst[written..]);
        read += bytes;
        written += units;
    }
    written
}

#[inline(never)]
fn convert_with_replacement(src: &[u8], dst: &mut [u16], blocks: usize) -> usize
    requires dst_length { length src.now < length dst.old }
    requires within { blocks < length src.now }
    requires short { length src.now ≤ 64 → (blocks ≡ 0) × (IsAscii src.now → ⊥) }
    requires start { ConvertsSome encode_utf16 src.now dst.old dst.old blocks blocks }
    requires stops { blocks + 64 ≤ length src.now → AllBelow 0x80 src.now blocks 64 → ⊥ }
    ensures converted { (parts : List Part) × ArePartsOf src.now parts
        × WritesPrefix dst.old dst.new
        result (lossy_utf16 parts) }
    ensures after { blocks ≤ result }
{
    let (read, written) = convert_beyond_ascii(src, dst, blocks);
    if read == src.len() {
        return written;
    }
    written + convert_malformed(&src[read..], &mut dst[written..])
}

/// Converts bytes to UTF-16, with U+FFFD for each malformed sequence, and returns how many code units it wrote.
/// Encoding Standard, UTF-8 decode without BOM.
///
/// `dst` has at least one code unit more than `src` has bytes.
pub fn convert_utf8_to_utf16(src: &[u8], dst: &mut [u16]) -> usize
    requires dst_length { length src.now < length dst.old }
    ensures { (parts : List Part) × ArePartsOf src.now parts × WritesPrefix dst.old dst.new result
        (lossy_utf16 parts) }
{
    if src.len() > SHORT {
        let blocks = unpack_blocks(src, dst);
        if blocks == src.len() {
            return blocks;
        }
        return convert_with_replacement(src, dst, blocks);
    }
    if write_short_ascii_as_units::<SHORT>(src, dst) {
        return src.len();
    }
    convert_with_replacement(src, dst, 0)
}

#[inline(never)]
fn convert_long_text(src: &[u8], dst: &mut [u16]) -> usize
    requires src_length { 64 < length src.now }
    requires dst_length { length src.now ≤ length dst.old }
    requires text { IsUtf8 src.now }
    ensures { WritesPrefix dst.old dst.new result (flat_map encode_utf16 (chars src.now)) }
{
    // inline, the ASCII at the start of fewer than three blocks costs less than half
    if src.len() >= BLOCK_OF_TEXT || src[0] >= ASCII_END {
        return convert_text(src, dst);
    }
    let ascii = unpack_ascii_prefix(src, dst);
    if ascii == src.len() {
        return ascii;
    }
    ascii + convert_text(&src[ascii..], &mut dst[ascii..])
}

/// Converts a text to UTF-16, and returns how many code units it wrote.
///
/// `dst` has at least as many code units as `src` has bytes.
pub fn convert_str_to_utf16(src: &str, dst: &mut [u16]) -> usize
    requires dst_length { length src.now ≤ length dst.old }
    ensures { WritesPrefix dst.old dst.new result (flat_map encode_utf16 (chars src.now)) }
{
    let bytes = src.as_bytes();
    if bytes.len() > SHORT {
        return convert_long_text(bytes, dst);
    }
    if write_short_ascii_as_units::<SHORT>(bytes, dst) {
        return bytes.len();
    }
    convert_short(bytes, dst)
}

/// Converts bytes to UTF-16. Returns how many code units it wrote if the bytes are well-formed, and otherwise `None`.
///
/// Only the characters of the longest well-formed prefix are written. `dst` has at least as many code units as `src`
/// has bytes.
pub fn convert_utf8_to_utf16_without_replacement(src: &[u8], dst: &mut [u16]) -> Option<usize>
    requires dst_length { length src.now ≤ length dst.old }
    ensures whole { IsSome result ↔ IsUtf8 src.now }
    ensures text { (written : ℕ) × WritesText src.now dst.old dst.new written × IfSome result
        (λ n. n ≡ written) }
{
    let (read, written) = convert_utf8_to_utf16_up_to_invalid(src, dst);
    if read == src.len() {
        Some(written)
    } else {
        None
    }
}
