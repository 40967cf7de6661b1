//! UTF-8: its longest well-formed prefix, its conversion to UTF-16, and the two halves of the conversion from UTF-16.
//! The rest of `dst` is unchanged.

ghost use Rattle.std.specs.Prelude.{◌≡◌, ◌+◌, ◌<◌, ◌≤◌, ◌⊎◌, take, length, IsUtf8};
ghost use Rattle.std.specs.Char.Escape.{encode_utf16};
ghost use Rattle.encoding_definitions.specs.Prefixes.{IsLongestPrefix, WritesPrefix};
ghost use Rattle.encoding_definitions.specs.Converting.{ConvertsMaximal};
ghost use Rattle.encoding_definitions.specs.Utf16.{IsUtf8OfPrefix, IsUtf8OfLongestPrefix};

use crate::status::{EncodingProgress, INVALID_ARGUMENT_PROGRESS};
use encoding_text::utf_8;

/// Returns the length in bytes of the longest prefix that is well-formed UTF-8.
#[unsafe(no_mangle)]
pub extern "C" fn encoding_text_utf8_valid_up_to(src: &[u8]) -> usize
    ensures { IsLongestPrefix IsUtf8 src.now result }
{
    utf_8::utf8_valid_up_to(src)
}

/// Converts as many characters of the longest well-formed prefix to UTF-16 as fit.
#[unsafe(no_mangle)]
pub extern "C" fn encoding_text_convert_utf8_to_utf16_up_to_invalid(
    src: &[u8],
    dst: &mut [u16],
) -> EncodingProgress
    ensures { ConvertsMaximal encode_utf16 src.now dst.old dst.new result.read result.written }
{
    let (read, written) = utf_8::convert_utf8_to_utf16_up_to_invalid(src, dst);
    EncodingProgress { read, written }
}

/// Converts a prefix of whole characters from UTF-16 to UTF-8. All of `src` is read, or at most three bytes of `dst`
/// are left.
#[unsafe(no_mangle)]
pub extern "C" fn encoding_text_convert_utf16_to_utf8_partial_inner(
    src: &[u16],
    dst: &mut [u8],
) -> EncodingProgress
    ensures prefix { IsUtf8OfPrefix src.now result.read (take result.written dst.new) }
    ensures unchanged_after { WritesPrefix dst.old dst.new result.written
        (take result.written dst.new) }
    ensures filled { (result.read ≡ length src.now) ⊎ (length dst.old < result.written + 4) }
{
    let (read, written) = utf_8::convert_utf16_to_utf8_partial_inner(src, dst);
    EncodingProgress { read, written }
}

/// Converts the longest prefix of whole characters that fits into at most three bytes. Returns `INVALID_ARGUMENT` for
/// both counts if `src` is empty or `dst` is longer than three bytes.
#[unsafe(no_mangle)]
pub extern "C" fn encoding_text_convert_utf16_to_utf8_partial_tail(
    src: &[u16],
    dst: &mut [u8],
) -> EncodingProgress
    ensures longest { 0 < length src.now → length dst.old < 4
        → IsUtf8OfLongestPrefix src.now (length dst.old) result.read (take result.written dst.new) }
    ensures unchanged_after { 0 < length src.now → length dst.old < 4
        → WritesPrefix dst.old dst.new result.written (take result.written dst.new) }
    ensures invalid_argument { (length src.now ≡ 0) ⊎ (4 ≤ length dst.old)
        → (result.read ≡ usize.MAX) × (result.written ≡ usize.MAX) × (dst.new ≡ dst.old) }
{
    if src.is_empty() || dst.len() > 3 {
        return INVALID_ARGUMENT_PROGRESS;
    }
    let (read, written) = utf_8::convert_utf16_to_utf8_partial_tail(src, dst);
    EncodingProgress { read, written }
}
