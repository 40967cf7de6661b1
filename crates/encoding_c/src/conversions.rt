//! Conversions of whole buffers. The rest of `dst` is unchanged.

ghost use Rattle.std.specs.Prelude.{◌≡◌, ◌*◌, ◌%◌, ◌<◌, ◌≤◌, ℕ, List, [], ◌∷◌, take, length, map, encode_utf8};
ghost use Rattle.std.specs.Prelude.{encode_utf8_all, IsUtf8};
ghost use Rattle.std.specs.List.{flat_map};
ghost use Rattle.std.specs.Str.{IsAscii, chars};
ghost use Rattle.std.specs.Char.Escape.{encode_utf16};
ghost use Rattle.encoding_definitions.specs.Prefixes.{IsLongestFittingPrefix, IsLongestPrefix, WritesPrefix};
ghost use Rattle.encoding_definitions.specs.Converting.{WritesText};
ghost use Rattle.encoding_definitions.specs.Latin1.{IsUtf8Latin1};
ghost use Rattle.encoding_definitions.specs.Parts.{Part, ArePartsOf, lossy_utf16};
ghost use Rattle.encoding_definitions.specs.Utf16.{IsUtf8OfLongestPrefix, IsUtf8OfUnits};

use crate::status::{EncodingProgress, INVALID_ARGUMENT, INVALID_ARGUMENT_PROGRESS, as_text};
use encoding_text::mem;
use encoding_text::utf_8::convert_utf8_to_utf16_up_to_invalid;

/// Copies the longest ASCII prefix, and returns its length. Returns `INVALID_ARGUMENT` if `dst` is shorter than `src`.
#[unsafe(no_mangle)]
pub extern "C" fn encoding_text_mem_copy_ascii_to_ascii(src: &[u8], dst: &mut [u8]) -> usize
    ensures prefix { length src.now ≤ length dst.old → IsLongestPrefix IsAscii src.now result }
    ensures copied { length src.now ≤ length dst.old
        → WritesPrefix dst.old dst.new result (take result src.now) }
    ensures invalid_argument { length dst.old < length src.now
        → (result ≡ usize.MAX) × (dst.new ≡ dst.old) }
{
    if dst.len() < src.len() {
        return INVALID_ARGUMENT;
    }
    mem::copy_ascii_to_ascii(src, dst)
}

/// Copies the longest ASCII prefix, each byte as a code unit, and returns its length. Returns `INVALID_ARGUMENT` if
/// `dst` is shorter than `src`.
#[unsafe(no_mangle)]
pub extern "C" fn encoding_text_mem_copy_ascii_to_basic_latin(src: &[u8], dst: &mut [u16]) -> usize
    ensures prefix { length src.now ≤ length dst.old → IsLongestPrefix IsAscii src.now result }
    ensures copied { length src.now ≤ length dst.old
        → WritesPrefix dst.old dst.new result (take result src.now) }
    ensures invalid_argument { length dst.old < length src.now
        → (result ≡ usize.MAX) × (dst.new ≡ dst.old) }
{
    if dst.len() < src.len() {
        return INVALID_ARGUMENT;
    }
    mem::copy_ascii_to_basic_latin(src, dst)
}

/// Copies the longest ASCII prefix of code units, each as a byte, and returns its length. Returns `INVALID_ARGUMENT` if
/// `dst` is shorter than `src`.
#[unsafe(no_mangle)]
pub extern "C" fn encoding_text_mem_copy_basic_latin_to_ascii(src: &[u16], dst: &mut [u8]) -> usize
    ensures prefix { length src.now ≤ length dst.old → IsLongestPrefix IsAscii src.now result }
    ensures copied { length src.now ≤ length dst.old
        → WritesPrefix dst.old dst.new result (take result src.now) }
    ensures invalid_argument { length dst.old < length src.now
        → (result ≡ usize.MAX) × (dst.new ≡ dst.old) }
{
    if dst.len() < src.len() {
        return INVALID_ARGUMENT;
    }
    mem::copy_basic_latin_to_ascii(src, dst)
}

/// Writes each byte as a code unit, and returns the number of code units written. Returns `INVALID_ARGUMENT` if `dst`
/// is shorter than `src`.
#[unsafe(no_mangle)]
pub extern "C" fn encoding_text_mem_convert_latin1_to_utf16(src: &[u8], dst: &mut [u16]) -> usize
    ensures written { length src.now ≤ length dst.old
        → (result ≡ length src.now) × WritesPrefix dst.old dst.new result src.now }
    ensures invalid_argument { length dst.old < length src.now
        → (result ≡ usize.MAX) × (dst.new ≡ dst.old) }
{
    if dst.len() < src.len() {
        return INVALID_ARGUMENT;
    }
    mem::convert_latin1_to_utf16(src, dst);
    src.len()
}

/// Writes the UTF-8 of the longest prefix of Latin1 whose UTF-8 fits.
#[unsafe(no_mangle)]
pub extern "C" fn encoding_text_mem_convert_latin1_to_utf8_partial(
    src: &[u8],
    dst: &mut [u8],
) -> EncodingProgress
    ensures prefix { IsLongestFittingPrefix (λ b. b ∷ []) encode_utf8 src.now
        (length dst.old) result.read
        (encode_utf8_all (take result.read src.now)) }
    ensures written { WritesPrefix dst.old dst.new result.written
        (encode_utf8_all (take result.read src.now)) }
{
    let (read, written) = mem::convert_latin1_to_utf8_partial(src, dst);
    EncodingProgress { read, written }
}

/// Writes the UTF-8 of each byte as a character, and returns its length. Returns `INVALID_ARGUMENT` if `dst` is less
/// than twice as long as `src`.
#[unsafe(no_mangle)]
pub extern "C" fn encoding_text_mem_convert_latin1_to_utf8(src: &[u8], dst: &mut [u8]) -> usize
    ensures written { 2 * length src.now ≤ length dst.old
        → WritesPrefix dst.old dst.new result (encode_utf8_all src.now) }
    ensures invalid_argument { length dst.old < 2 * length src.now
        → (result ≡ usize.MAX) × (dst.new ≡ dst.old) }
{
    if dst.len() / 2 < src.len() {
        return INVALID_ARGUMENT;
    }
    mem::convert_latin1_to_utf8(src, dst)
}

/// Writes the scalar value of each character of Latin1 text in UTF-8 as a byte, and returns the number of bytes
/// written. Returns `INVALID_ARGUMENT` if `dst` is shorter than `src`, or `src` isn't the UTF-8 of Latin1 text.
#[unsafe(no_mangle)]
pub extern "C" fn encoding_text_mem_convert_utf8_to_latin1_lossy(
    src: &[u8],
    dst: &mut [u8],
) -> usize
    ensures written { length src.now ≤ length dst.old → IsUtf8Latin1 src.now
        → WritesPrefix dst.old dst.new result (chars src.now) }
    ensures too_short { length dst.old < length src.now
        → (result ≡ usize.MAX) × (dst.new ≡ dst.old) }
    ensures other { ¬ (IsUtf8Latin1 src.now) → (result ≡ usize.MAX) × (dst.new ≡ dst.old) }
{
    if dst.len() < src.len() || !mem::is_utf8_latin1(src) {
        return INVALID_ARGUMENT;
    }
    mem::convert_utf8_to_latin1_lossy(src, dst)
}

/// Writes the low eight bits of each code unit as a byte, and returns the number of bytes written. Returns
/// `INVALID_ARGUMENT` if `dst` is shorter than `src`.
#[unsafe(no_mangle)]
pub extern "C" fn encoding_text_mem_convert_utf16_to_latin1_lossy(
    src: &[u16],
    dst: &mut [u8],
) -> usize
    ensures written { length src.now ≤ length dst.old
        → (result ≡ length src.now) × WritesPrefix dst.old dst.new result
        (map (λ unit. unit % 0x100) src.now) }
    ensures invalid_argument { length dst.old < length src.now
        → (result ≡ usize.MAX) × (dst.new ≡ dst.old) }
{
    if dst.len() < src.len() {
        return INVALID_ARGUMENT;
    }
    mem::convert_utf16_to_latin1_lossy(src, dst);
    src.len()
}

/// Converts bytes to UTF-16 with U+FFFD for each malformed sequence, and returns the number of code units written.
/// Returns `INVALID_ARGUMENT` if `dst` isn't longer than `src`.
#[unsafe(no_mangle)]
pub extern "C" fn encoding_text_mem_convert_utf8_to_utf16(src: &[u8], dst: &mut [u16]) -> usize
    ensures written { length src.now < length dst.old
        → (parts : List Part) × ArePartsOf src.now parts
        × WritesPrefix dst.old dst.new result (lossy_utf16 parts) }
    ensures invalid_argument { length dst.old ≤ length src.now
        → (result ≡ usize.MAX) × (dst.new ≡ dst.old) }
{
    if dst.len() <= src.len() {
        return INVALID_ARGUMENT;
    }
    mem::convert_utf8_to_utf16(src, dst)
}

/// Converts a text to UTF-16, and returns the number of code units written. Returns `INVALID_ARGUMENT` if `dst` is
/// shorter than `src`, or the bytes are ill-formed.
#[unsafe(no_mangle)]
pub extern "C" fn encoding_text_mem_convert_str_to_utf16(src: &[u8], dst: &mut [u16]) -> usize
    ensures written { length src.now ≤ length dst.old → IsUtf8 src.now
        → WritesPrefix dst.old dst.new result (flat_map encode_utf16 (chars src.now)) }
    ensures too_short { length dst.old < length src.now
        → (result ≡ usize.MAX) × (dst.new ≡ dst.old) }
    ensures other { ¬ (IsUtf8 src.now) → (result ≡ usize.MAX) × (dst.new ≡ dst.old) }
{
    if dst.len() < src.len() {
        return INVALID_ARGUMENT;
    }
    match as_text(src) {
        Some(text) => mem::convert_str_to_utf16(text, dst),
        None => INVALID_ARGUMENT,
    }
}

/// Converts the longest well-formed prefix to UTF-16. `read` is its length: the length of `src` if and only if all of
/// it is well-formed. Returns `INVALID_ARGUMENT` for both counts if `dst` is shorter than `src`.
#[unsafe(no_mangle)]
pub extern "C" fn encoding_text_mem_convert_utf8_to_utf16_without_replacement(
    src: &[u8],
    dst: &mut [u16],
) -> EncodingProgress
    ensures prefix { length src.now ≤ length dst.old → IsLongestPrefix IsUtf8 src.now result.read }
    ensures written { length src.now ≤ length dst.old
        → WritesText src.now dst.old dst.new result.written }
    ensures invalid_argument { length dst.old < length src.now
        → (result.read ≡ usize.MAX) × (result.written ≡ usize.MAX) × (dst.new ≡ dst.old) }
{
    if dst.len() < src.len() {
        return INVALID_ARGUMENT_PROGRESS;
    }
    let (read, written) = convert_utf8_to_utf16_up_to_invalid(src, dst);
    EncodingProgress { read, written }
}

/// Converts the longest prefix of whole characters that fits from UTF-16 to UTF-8, with U+FFFD for each unpaired
/// surrogate.
#[unsafe(no_mangle)]
pub extern "C" fn encoding_text_mem_convert_utf16_to_utf8_partial(
    src: &[u16],
    dst: &mut [u8],
) -> EncodingProgress
    ensures longest { IsUtf8OfLongestPrefix src.now (length dst.old) result.read
        (take result.written dst.new) }
    ensures unchanged_after { WritesPrefix dst.old dst.new result.written
        (take result.written dst.new) }
{
    let (read, written) = mem::convert_utf16_to_utf8_partial(src, dst);
    EncodingProgress { read, written }
}

/// Converts all of `src` from UTF-16 to UTF-8, and returns the number of bytes written. Returns `INVALID_ARGUMENT` if
/// `dst` is less than three times as long as `src`.
#[unsafe(no_mangle)]
pub extern "C" fn encoding_text_mem_convert_utf16_to_utf8(src: &[u16], dst: &mut [u8]) -> usize
    ensures all { 3 * length src.now ≤ length dst.old
        → IsUtf8OfUnits src.now (take result dst.new) }
    ensures unchanged_after { 3 * length src.now ≤ length dst.old
        → WritesPrefix dst.old dst.new result (take result dst.new) }
    ensures invalid_argument { length dst.old < 3 * length src.now
        → (result ≡ usize.MAX) × (dst.new ≡ dst.old) }
{
    if dst.len() / 3 < src.len() {
        return INVALID_ARGUMENT;
    }
    mem::convert_utf16_to_utf8(src, dst)
}
