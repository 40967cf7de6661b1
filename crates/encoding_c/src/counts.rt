//! Exact counts: characters, and the bytes of repaired text.

ghost use Rattle.std.specs.Prelude.{◌≡◌, List, length, min};
ghost use Rattle.encoding_definitions.specs.Parts.{Part, ArePartsOf, lossy_utf8};
ghost use Rattle.encoding_definitions.specs.Utf16.{Part16, ArePartsOf16};

use encoding_text::count;

/// Returns the number of characters in the bytes, with one for each malformed sequence.
#[unsafe(no_mangle)]
pub extern "C" fn encoding_text_utf8_count(src: &[u8]) -> usize
    ensures { (parts : List Part) × ArePartsOf src.now parts × (result ≡ length parts) }
{
    count::utf8_count(src)
}

/// Returns the number of characters in the code units, with one for each unpaired surrogate.
#[unsafe(no_mangle)]
pub extern "C" fn encoding_text_utf16_count(src: &[u16]) -> usize
    ensures { (parts : List Part16) × ArePartsOf16 src.now parts × (result ≡ length parts) }
{
    count::utf16_count(src)
}

/// Returns the number of bytes of `src` with U+FFFD for each malformed sequence. Returns `usize::MAX` if it is greater.
#[unsafe(no_mangle)]
pub extern "C" fn encoding_text_repaired_utf8_length(src: &[u8]) -> usize
    ensures { (parts : List Part) × ArePartsOf src.now parts
        × (result ≡ min (length (lossy_utf8 parts)) usize.MAX) }
{
    count::repaired_utf8_length(src).unwrap_or(usize::MAX)
}
