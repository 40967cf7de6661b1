//! Calls on bytes that the caller knows to be well-formed, as in a language with a type for such text. Nothing checks
//! it here.

ghost use Rattle.std.specs.Prelude.{◌≡◌, ◌<◌, ◌≤◌, ◌↔◌, IsTrue, IsUtf8, length};
ghost use Rattle.std.specs.List.{flat_map};
ghost use Rattle.std.specs.Str.{chars};
ghost use Rattle.std.specs.Char.Escape.{encode_utf16};
ghost use Rattle.encoding_definitions.specs.Bidi.{IsBidiText};
ghost use Rattle.encoding_definitions.specs.Prefixes.{IsLongestPrefix, WritesPrefix};
ghost use Rattle.encoding_definitions.specs.Latin1.{IsUtf8Latin1};
ghost use Rattle.encoding_c.specs.Status.{IsChoice};

use crate::status::{BIDI, INVALID_ARGUMENT, LATIN1, LEFT_TO_RIGHT};
use encoding_text::count;
use encoding_text::mem::{self, Latin1Bidi};
use std::str::from_utf8_unchecked;

/// Returns whether the scalar values of the text are each up to U+00FF.
#[unsafe(no_mangle)]
pub extern "C" fn encoding_text_mem_is_str_latin1_unchecked(buffer: &[u8]) -> bool
    requires text { IsUtf8 buffer.now }
    ensures { IsTrue result ↔ IsUtf8Latin1 buffer.now }
{
    mem::is_str_latin1(unsafe { from_utf8_unchecked(buffer) })
}

/// Returns the length in bytes of the text's longest prefix of scalar values up to U+00FF.
#[unsafe(no_mangle)]
pub extern "C" fn encoding_text_mem_str_latin1_up_to_unchecked(buffer: &[u8]) -> usize
    requires text { IsUtf8 buffer.now }
    ensures { IsLongestPrefix IsUtf8Latin1 buffer.now result }
{
    mem::str_latin1_up_to(unsafe { from_utf8_unchecked(buffer) })
}

/// Returns whether a character of the text is right-to-left.
#[unsafe(no_mangle)]
pub extern "C" fn encoding_text_mem_is_str_bidi_unchecked(buffer: &[u8]) -> bool
    requires text { IsUtf8 buffer.now }
    ensures { IsTrue result ↔ IsBidiText buffer.now }
{
    mem::is_str_bidi(unsafe { from_utf8_unchecked(buffer) })
}

/// Returns whether the text is Latin1, and if not, whether it is right-to-left.
#[unsafe(no_mangle)]
pub extern "C" fn encoding_text_mem_check_str_for_latin1_and_bidi_unchecked(buffer: &[u8]) -> u8
    requires text { IsUtf8 buffer.now }
    ensures { IsChoice (IsUtf8Latin1 buffer.now) (IsBidiText buffer.now) result }
{
    match mem::check_str_for_latin1_and_bidi(unsafe { from_utf8_unchecked(buffer) }) {
        Latin1Bidi::Latin1 => LATIN1,
        Latin1Bidi::LeftToRight => LEFT_TO_RIGHT,
        Latin1Bidi::Bidi => BIDI,
    }
}

/// Returns the number of characters of Latin1 text: how many bytes it has in Latin1.
#[unsafe(no_mangle)]
pub extern "C" fn encoding_text_mem_latin1_length_from_utf8_unchecked(src: &[u8]) -> usize
    requires latin1 { IsUtf8Latin1 src.now }
    ensures { result ≡ length (chars src.now) }
{
    mem::latin1_length_from_utf8(src)
}

/// Returns the length of a text in UTF-16 code units.
#[unsafe(no_mangle)]
pub extern "C" fn encoding_text_mem_utf16_length_from_utf8_unchecked(src: &[u8]) -> usize
    requires text { IsUtf8 src.now }
    ensures { result ≡ length (flat_map encode_utf16 (chars src.now)) }
{
    mem::utf16_length_from_str(unsafe { from_utf8_unchecked(src) })
}

/// Returns the number of characters of a text.
#[unsafe(no_mangle)]
pub extern "C" fn encoding_text_utf8_count_unchecked(src: &[u8]) -> usize
    requires text { IsUtf8 src.now }
    ensures { result ≡ length (chars src.now) }
{
    count::str_count(unsafe { from_utf8_unchecked(src) })
}

/// Converts a text to UTF-16, and returns the number of code units written. The rest of `dst` is unchanged. Returns
/// `INVALID_ARGUMENT` if `dst` is shorter than `src`.
#[unsafe(no_mangle)]
pub extern "C" fn encoding_text_mem_convert_str_to_utf16_unchecked(
    src: &[u8],
    dst: &mut [u16],
) -> usize
    requires text { IsUtf8 src.now }
    ensures written { length src.now ≤ length dst.old
        → WritesPrefix dst.old dst.new result (flat_map encode_utf16 (chars src.now)) }
    ensures invalid_argument { length dst.old < length src.now
        → (result ≡ usize.MAX) × (dst.new ≡ dst.old) }
{
    if dst.len() < src.len() {
        return INVALID_ARGUMENT;
    }
    mem::convert_str_to_utf16(unsafe { from_utf8_unchecked(src) }, dst)
}
