//! The exact length of a text in another encoding.

ghost use Rattle.std.specs.Prelude.{◌≡◌, ℕ, List, length, encode_utf8_all};
ghost use Rattle.std.specs.Str.{chars};
ghost use Rattle.encoding_definitions.specs.Latin1.{IsUtf8Latin1};
ghost use Rattle.encoding_definitions.specs.Parts.{Part, ArePartsOf, lossy_utf16};
ghost use Rattle.encoding_definitions.specs.Utf16.{IsUtf8OfUnits};

use crate::status::INVALID_ARGUMENT;
use encoding_text::mem;

/// Returns the number of code units of the bytes in UTF-16, with U+FFFD for each malformed sequence.
#[unsafe(no_mangle)]
pub extern "C" fn encoding_text_mem_utf16_length_from_utf8(src: &[u8]) -> usize
    ensures { (parts : List Part) × ArePartsOf src.now parts
        × (result ≡ length (lossy_utf16 parts)) }
{
    mem::utf16_length_from_utf8(src)
}

/// Returns the number of bytes of the code units in UTF-8, with U+FFFD for each unpaired surrogate.
#[unsafe(no_mangle)]
pub extern "C" fn encoding_text_mem_utf8_length_from_utf16(src: &[u16]) -> usize
    ensures { (text : List ℕ) × IsUtf8OfUnits src.now text × (result ≡ length text) }
{
    mem::utf8_length_from_utf16(src)
}

/// Returns the number of bytes of the UTF-8 of each byte as a character.
#[unsafe(no_mangle)]
pub extern "C" fn encoding_text_mem_utf8_length_from_latin1(src: &[u8]) -> usize
    ensures { result ≡ length (encode_utf8_all src.now) }
{
    mem::utf8_length_from_latin1(src)
}

/// Returns the number of characters of Latin1 text in UTF-8. Returns `INVALID_ARGUMENT` if `src` isn't the UTF-8 of
/// Latin1 text.
#[unsafe(no_mangle)]
pub extern "C" fn encoding_text_mem_latin1_length_from_utf8(src: &[u8]) -> usize
    ensures characters { IsUtf8Latin1 src.now → result ≡ length (chars src.now) }
    ensures other { ¬ (IsUtf8Latin1 src.now) → result ≡ usize.MAX }
{
    if !mem::is_utf8_latin1(src) {
        return INVALID_ARGUMENT;
    }
    mem::latin1_length_from_utf8(src)
}
