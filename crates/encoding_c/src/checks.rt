//! Checks of whole buffers.

ghost use Rattle.std.specs.Prelude.{◌≡◌, ◌≢◌, ◌↔◌, IsTrue, IsUtf8};
ghost use Rattle.std.specs.Str.{IsAscii};
ghost use Rattle.encoding_definitions.specs.Prefixes.{IsLongestPrefix};
ghost use Rattle.encoding_definitions.specs.Latin1.{IsLatin1, IsUtf8Latin1};

use crate::status::{INVALID_ARGUMENT, as_text};
use encoding_text::mem;

/// Returns whether each byte is ASCII.
#[unsafe(no_mangle)]
pub extern "C" fn encoding_text_mem_is_ascii(buffer: &[u8]) -> bool
    ensures { IsTrue result ↔ IsAscii buffer.now }
{
    mem::is_ascii(buffer)
}

/// Returns whether each code unit is ASCII.
#[unsafe(no_mangle)]
pub extern "C" fn encoding_text_mem_is_basic_latin(buffer: &[u16]) -> bool
    ensures { IsTrue result ↔ IsAscii buffer.now }
{
    mem::is_basic_latin(buffer)
}

/// Returns whether the bytes are well-formed UTF-8 of scalar values up to U+00FF.
#[unsafe(no_mangle)]
pub extern "C" fn encoding_text_mem_is_utf8_latin1(buffer: &[u8]) -> bool
    ensures { IsTrue result ↔ IsUtf8Latin1 buffer.now }
{
    mem::is_utf8_latin1(buffer)
}

/// Returns whether each code unit is up to 0x00FF.
#[unsafe(no_mangle)]
pub extern "C" fn encoding_text_mem_is_utf16_latin1(buffer: &[u16]) -> bool
    ensures { IsTrue result ↔ IsLatin1 buffer.now }
{
    mem::is_utf16_latin1(buffer)
}

/// Returns the length in bytes of the longest prefix that is the UTF-8 of scalar values up to U+00FF.
#[unsafe(no_mangle)]
pub extern "C" fn encoding_text_mem_utf8_latin1_up_to(buffer: &[u8]) -> usize
    ensures { IsLongestPrefix IsUtf8Latin1 buffer.now result }
{
    mem::utf8_latin1_up_to(buffer)
}

/// Returns the length in bytes of the longest prefix of a text that is the UTF-8 of scalar values up to U+00FF. Returns
/// `INVALID_ARGUMENT` if the bytes are ill-formed.
#[unsafe(no_mangle)]
pub extern "C" fn encoding_text_mem_str_latin1_up_to(buffer: &[u8]) -> usize
    ensures text { IsUtf8 buffer.now → IsLongestPrefix IsUtf8Latin1 buffer.now result }
    ensures invalid_argument { ¬ (IsUtf8 buffer.now) → result ≡ usize.MAX }
{
    match as_text(buffer) {
        Some(text) => mem::str_latin1_up_to(text),
        None => INVALID_ARGUMENT,
    }
}
