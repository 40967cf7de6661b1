//! From UTF-8 to UTF-16, and its twin from UTF-8 to UTF-8. What follows the first ASCII is out of line, so that ASCII
//! needs few registers. A conversion leaves the rest of `dst` unchanged.
ghost use Rattle.std.specs.Prelude.{◌≡◌, ℕ, ◌+◌, ◌<◌, ◌≤◌, length};
ghost use Rattle.std.proofs.Common.{arith, rules};
ghost use Rattle.std.proofs.lemmas.Grind.{common_steps};
ghost use Rattle.std.proofs.lemmas.Str.{length-encode, len_utf8_bounds};
ghost use Rattle.std.specs.List.{flat_map};
ghost use Rattle.std.specs.Char.{IsScalar};
ghost use Rattle.std.specs.Char.Escape.{encode_utf16};
ghost use Rattle.std.specs.Str.{IsAscii, IsUtf8, chars};
ghost use Rattle.encoding_definitions.specs.Prefixes.{WritesPrefix};
ghost use Rattle.encoding_definitions.specs.Converting.{ConvertsMaximal};
ghost use Rattle.encoding_kernels.specs.Scans.{AllBelow};
ghost use Rattle.encoding_text.specs.Steps.{ConvertsSome, ConvertsUntilFull};

use super::first::{First, character_length};
use super::validate::{utf8_valid_up_to, valid_beyond_ascii, valid_up_to_by_vectors};
use crate::ascii::prefixes::{
    copy_prefix_of_text, copy_to_basic_latin, is_short, unpack_blocks, unpack_rest,
    write_short_ascii_as_units,
};
use crate::code_unit::CodeUnit;
use encoding_kernels::lengths::{LEAST_FOR_VECTORS, SHORT};
use encoding_kernels::scalar::{decode_utf8_scalar, write_utf16};
use encoding_kernels::simd::copy::copy_prefix;
use encoding_kernels::simd::scan::{AllPass, BytesBelow};
use encoding_kernels::simd::width::{ASCII_END, FOUR_BLOCKS, HALF_BLOCK};
use encoding_kernels::tuning::{CONVERTED_PIECE, CONVERTED_RUN};
use encoding_kernels::utf8_to_utf16::text::{convert_short, convert_valid_utf8_to_utf16};

/// Code units that UTF-8 is converted to.
pub(crate) trait FromUtf8: CodeUnit {
    fn convert_up_to_invalid(src: &[u8], dst: &mut [Self]) -> (usize, usize)
        ensures { ConvertsUntilFull Self.encode src.now dst.old dst.new result.0 result.1 };

    ghost holds_any: { (c : ℕ) → IsScalar c → length (Self.encode c) ≤ Self.MAX_UNITS };
}

impl FromUtf8 for u16 {
    ghost holds_any = { Prim.search (rules, common_steps) };

    #[tactic(auto, using(crate::proofs::ConvertingLemmas::converts_prefix))]
    #[inline(always)]
    fn convert_up_to_invalid(src: &[u8], dst: &mut [u16]) -> (usize, usize) {
        convert_utf8_to_utf16_up_to_invalid(src, dst)
    }
}

impl FromUtf8 for u8 {
    ghost holds_any = { λ c _. Prim.omega (arith, length-encode c, len_utf8_bounds c) };

    /// The characters that fit are those of the prefix that is as long as `dst`.
    #[tactic(auto, using(std::proofs::lemmas::Grind::common_steps, crate::proofs::ConvertingLemmas::copies))]
    fn convert_up_to_invalid(src: &[u8], dst: &mut [u8]) -> (usize, usize) {
        let room = src.len().min(dst.len());
        if room <= SHORT && is_short(&src[..room]) {
            copy_prefix(&src[..room], dst);
            return (room, room);
        }
        let length = valid_beyond_ascii(&src[..room]);
        copy_prefix(&src[..length], dst);
        (length, length)
    }
}

#[inline(never)]
fn convert_short_beyond_ascii(src: &[u8], dst: &mut [u16]) -> (usize, usize)
    requires other { IsAscii src.now → ⊥ }
    requires src_length { length src.now ≤ 64 }
    requires dst_length { length src.now ≤ length dst.old }
    ensures { ConvertsMaximal encode_utf16 src.now dst.old dst.new result.0 result.1 }
{
    if src.len() < LEAST_FOR_VECTORS {
        return convert_after_ascii(src, dst);
    }
    let valid = valid_up_to_by_vectors::<true>(src);
    if valid == src.len() {
        return (valid, convert_short(src, dst));
    }
    // before a malformed sequence there is often only ASCII
    let text = &src[..valid];
    let written = if write_short_ascii_as_units::<SHORT>(text, dst) {
        valid
    } else {
        convert_short(text, dst)
    };
    (valid, written)
}

/// A turn takes the ASCII prefix, and then other text up to a run of ASCII.
#[inline(never)]
pub(crate) fn convert_text(src: &[u8], dst: &mut [u16]) -> usize
    requires dst_length { length src.now ≤ length dst.old }
    requires text { IsUtf8 src.now }
    ensures { WritesPrefix dst.old dst.new result (flat_map encode_utf16 (chars src.now)) }
{
    let mut read = 0;
    let mut written = 0;
    loop {
        let ascii = copy_prefix_of_text(&src[read..], &mut dst[written..]);
        read += ascii;
        written += ascii;
        if read == src.len() {
            return written;
        }
        let (bytes, units) = convert_valid_utf8_to_utf16(&src[read..], &mut dst[written..]);
        read += bytes;
        written += units;
    }
}

/// A turn takes the ASCII prefix, a well-formed piece whose UTF-16 fits, and one character. In a short source a
/// character before a long run of ASCII is no piece, since the run would be read twice. In a longer one the validation
/// brings the run into the nearest cache.
#[inline(never)]
fn convert_turns(src: &[u8], dst: &mut [u16], ascii: usize) -> (usize, usize)
    requires { ConvertsSome encode_utf16 src.now dst.old dst.old ascii ascii }
    ensures converts { ConvertsMaximal encode_utf16 src.now dst.old dst.new result.0 result.1 }
    ensures after { ascii ≤ result.1 }
{
    let mut read = ascii;
    let mut written = ascii;
    loop {
        if read < src.len() && src[read] < ASCII_END {
            let ascii = copy_to_basic_latin(&src[read..], &mut dst[written..]);
            read += ascii;
            written += ascii;
        }
        let ascii = BytesBelow {
            bytes: &src[read..],
            bound: ASCII_END,
        };
        let before_run = src.len() - read >= 4 + FOUR_BLOCKS
            && AllPass::<HALF_BLOCK, FOUR_BLOCKS>::pass(&ascii, 4);
        let most = match before_run {
            false => CONVERTED_PIECE,
            true if src.len() > 2 * CONVERTED_RUN => CONVERTED_RUN,
            true => 0,
        };
        let piece = most.min(src.len() - read).min(dst.len() - written);
        let valid = utf8_valid_up_to(&src[read..read + piece]);
        written += convert_text(&src[read..read + valid], &mut dst[written..]);
        read += valid;
        let Some(length) = character_length(&src[read..]) else {
            return (read, written);
        };
        let scalar = decode_utf8_scalar(&src[read..read + length]);
        let Some(units) = write_utf16(scalar, &mut dst[written..]) else {
            return (read, written);
        };
        read += length;
        written += units;
    }
}

#[inline(never)]
fn convert_after_blocks(src: &[u8], dst: &mut [u16], blocks: usize) -> (usize, usize)
    requires within { blocks < length src.now }
    requires start { ConvertsSome encode_utf16 src.now dst.old dst.old blocks blocks }
    requires stops { blocks + 64 ≤ length src.now → blocks + 64 ≤ length dst.old
        → AllBelow 0x80 src.now blocks 64 → ⊥ }
    ensures converts { ConvertsMaximal encode_utf16 src.now dst.old dst.new result.0 result.1 }
    ensures after { blocks ≤ result.1 }
{
    let mut ascii = blocks;
    if src[blocks] < ASCII_END {
        let fitting = src.len().min(dst.len());
        ascii += unpack_rest(&src[blocks..fitting], &mut dst[blocks..]);
        if ascii == src.len() {
            return (ascii, ascii);
        }
    }
    // between malformed sequences there is often only ASCII
    if src[ascii] >= ASCII_END && First::of_two(&src[ascii..]).is_some() {
        return (ascii, ascii);
    }
    convert_turns(src, dst, ascii)
}

#[inline(always)]
pub(crate) fn convert_beyond_ascii(src: &[u8], dst: &mut [u16], blocks: usize) -> (usize, usize)
    requires dst_length { length src.now ≤ length dst.old }
    requires within { blocks < length src.now }
    requires short { length src.now ≤ 64 → (blocks ≡ 0) × (IsAscii src.now → ⊥) }
    requires start { ConvertsSome encode_utf16 src.now dst.old dst.old blocks blocks }
    requires stops { blocks + 64 ≤ length src.now → AllBelow 0x80 src.now blocks 64 → ⊥ }
    ensures converts { ConvertsMaximal encode_utf16 src.now dst.old dst.new result.0 result.1 }
    ensures after { blocks ≤ result.1 }
{
    match src.len() {
        ..=SHORT => convert_short_beyond_ascii(src, dst),
        _ => convert_after_blocks(src, dst, blocks),
    }
}

/// Ends with a tail call, so that ASCII saves no registers.
#[inline(never)]
fn convert_after_ascii(src: &[u8], dst: &mut [u16]) -> (usize, usize)
    ensures { ConvertsMaximal encode_utf16 src.now dst.old dst.new result.0 result.1 }
{
    let blocks = unpack_blocks(&src[..src.len().min(dst.len())], dst);
    if blocks == src.len() {
        return (blocks, blocks);
    }
    convert_after_blocks(src, dst, blocks)
}

/// Converts UTF-8 to UTF-16 up to the first byte that is in no character, or as far as whole characters fit. Returns
/// how many bytes it read and how many code units it wrote. `dst` may have any length. Two vectors copy short ASCII.
#[inline(always)]
pub fn convert_utf8_to_utf16_up_to_invalid(src: &[u8], dst: &mut [u16]) -> (usize, usize)
    ensures { ConvertsMaximal encode_utf16 src.now dst.old dst.new result.0 result.1 }
{
    if src.len() <= SHORT && src.len() <= dst.len() {
        if write_short_ascii_as_units::<SHORT>(src, dst) {
            return (src.len(), src.len());
        }
        return convert_short_beyond_ascii(src, dst);
    }
    convert_after_ascii(src, dst)
}
