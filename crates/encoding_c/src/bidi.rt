//! Checks of whole buffers for right-to-left characters, and for Latin1 and right-to-left characters at once.

ghost use Rattle.std.specs.Prelude.{◌≡◌, ◌↔◌, IsTrue, IsUtf8};
ghost use Rattle.encoding_definitions.specs.Latin1.{IsLatin1, IsUtf8Latin1};
ghost use Rattle.encoding_definitions.specs.Bidi.{IsRightToLeftUnit, IsBidiUnits, IsBidiText, IsBidiBytes};
ghost use Rattle.encoding_c.specs.Status.{IsChoice};

use crate::status::{BIDI, INVALID_ARGUMENT_U8, LATIN1, LEFT_TO_RIGHT, as_text};
use encoding_text::mem::{self, Latin1Bidi};

/// Returns whether the code unit is a right-to-left character, or the high surrogate of one.
#[unsafe(no_mangle)]
pub extern "C" fn encoding_text_mem_is_utf16_code_unit_bidi(u: u16) -> bool
    ensures { IsTrue result ↔ IsRightToLeftUnit u }
{
    mem::is_utf16_code_unit_bidi(u)
}

/// Returns whether the bytes are ill-formed UTF-8, or one of their characters is right-to-left.
#[unsafe(no_mangle)]
pub extern "C" fn encoding_text_mem_is_utf8_bidi(buffer: &[u8]) -> bool
    ensures { IsTrue result ↔ IsBidiBytes buffer.now }
{
    mem::is_utf8_bidi(buffer)
}

/// Returns whether a character of the code units is right-to-left, or an unpaired high surrogate may be half of one.
#[unsafe(no_mangle)]
pub extern "C" fn encoding_text_mem_is_utf16_bidi(buffer: &[u16]) -> bool
    ensures { IsTrue result ↔ IsBidiUnits buffer.now }
{
    mem::is_utf16_bidi(buffer)
}

/// Returns whether the bytes are Latin1 in UTF-8, and if not, whether they are right-to-left or ill-formed.
#[unsafe(no_mangle)]
pub extern "C" fn encoding_text_mem_check_utf8_for_latin1_and_bidi(buffer: &[u8]) -> u8
    ensures { IsChoice (IsUtf8Latin1 buffer.now) (IsBidiBytes buffer.now) result }
{
    match mem::check_utf8_for_latin1_and_bidi(buffer) {
        Latin1Bidi::Latin1 => LATIN1,
        Latin1Bidi::LeftToRight => LEFT_TO_RIGHT,
        Latin1Bidi::Bidi => BIDI,
    }
}

/// Returns whether the text is Latin1, and if not, whether it is right-to-left: `INVALID_ARGUMENT_U8` if the bytes are
/// ill-formed.
#[unsafe(no_mangle)]
pub extern "C" fn encoding_text_mem_check_str_for_latin1_and_bidi(buffer: &[u8]) -> u8
    ensures text { IsUtf8 buffer.now
        → IsChoice (IsUtf8Latin1 buffer.now) (IsBidiText buffer.now) result }
    ensures invalid_argument { ¬ (IsUtf8 buffer.now) → result ≡ u8.MAX }
{
    let Some(text) = as_text(buffer) else {
        return INVALID_ARGUMENT_U8;
    };
    match mem::check_str_for_latin1_and_bidi(text) {
        Latin1Bidi::Latin1 => LATIN1,
        Latin1Bidi::LeftToRight => LEFT_TO_RIGHT,
        Latin1Bidi::Bidi => BIDI,
    }
}

/// Returns whether the code units are Latin1, and if not, whether they are right-to-left.
#[unsafe(no_mangle)]
pub extern "C" fn encoding_text_mem_check_utf16_for_latin1_and_bidi(buffer: &[u16]) -> u8
    ensures { IsChoice (IsLatin1 buffer.now) (IsBidiUnits buffer.now) result }
{
    match mem::check_utf16_for_latin1_and_bidi(buffer) {
        Latin1Bidi::Latin1 => LATIN1,
        Latin1Bidi::LeftToRight => LEFT_TO_RIGHT,
        Latin1Bidi::Bidi => BIDI,
    }
}
