//! Exact lengths of text in another encoding: the space that a destination needs. Each is one pass that writes nothing.

ghost use Rattle.std.specs.Prelude.{◌≡◌, ℕ, ◌≤◌, List, [], ◌∷◌, length, encode_utf8, encode_utf8_all};
ghost use Rattle.std.specs.Char.Escape.{encode_utf16};
ghost use Rattle.std.specs.List.{flat_map};
ghost use Rattle.std.specs.Str.{chars};
ghost use Rattle.encoding_definitions.specs.Latin1.{IsUtf8Latin1};
ghost use Rattle.encoding_definitions.specs.Parts.{Part, ArePartsOf, lossy_utf16};
ghost use Rattle.encoding_definitions.specs.Prefixes.{IsLongestFittingPrefix};
ghost use Rattle.encoding_definitions.specs.Utf16.{IsUtf8OfLongestPrefix, IsUtf8OfUnits};
ghost use Rattle.encoding_text.specs.Replacing.{SufficesForParts};

use encoding_kernels::latin1::length::{latin1_length_of_utf8, utf8_length_of_latin1};
use encoding_kernels::utf8::known::utf16_length_of_text;
use encoding_kernels::utf8::length::utf16_length_of_utf8;
use encoding_kernels::utf16::length::utf8_length_of_units;

/// Returns the length of the bytes in UTF-16 code units, with U+FFFD for each malformed sequence: what
/// `convert_utf8_to_utf16` writes. Encoding Standard, UTF-8 decode without BOM.
///
/// With a destination of this length, `convert_utf8_to_utf16_partial` reads all of `src`.
pub fn utf16_length_from_utf8(src: &[u8]) -> usize
    ensures length { (parts : List Part) × ArePartsOf src.now parts
        × (result ≡ length (lossy_utf16 parts)) }
    ensures suffices { SufficesForParts encode_utf16 src.now result }
{
    utf16_length_of_utf8(src)
}

/// Returns the length of a text in UTF-16 code units: what `convert_str_to_utf16` writes, and `src.encode_utf16().count()`.
/// It looks at each byte by itself, so it takes less time than `utf16_length_from_utf8`.
pub fn utf16_length_from_str(src: &str) -> usize
    ensures { result ≡ length (flat_map encode_utf16 (chars src.now)) }
{
    utf16_length_of_text(src.as_bytes())
}

/// Returns the length of the code units in bytes of UTF-8, with U+FFFD for each unpaired surrogate: what
/// `convert_utf16_to_utf8` writes.
///
/// With a destination of this length, `convert_utf16_to_utf8_partial` reads all of `src`.
pub fn utf8_length_from_utf16(src: &[u16]) -> usize
    ensures length { (text : List ℕ) × IsUtf8OfUnits src.now text × (result ≡ length text) }
    ensures suffices { (room read : ℕ) (out : List ℕ) → result ≤ room
        → IsUtf8OfLongestPrefix src.now room read out
        → (read ≡ length src.now) × IsUtf8OfUnits src.now out }
{
    utf8_length_of_units(src)
}

/// Returns the length of the UTF-8 of each byte as a character: what `convert_latin1_to_utf8` writes.
///
/// With a destination of this length, `convert_latin1_to_utf8_partial` reads all of `src`.
pub fn utf8_length_from_latin1(src: &[u8]) -> usize
    ensures length { result ≡ length (encode_utf8_all src.now) }
    ensures suffices { (room read : ℕ) (out : List ℕ) → result ≤ room
        → IsLongestFittingPrefix (λ b. b ∷ []) encode_utf8 src.now room read out
        → (read ≡ length src.now) × (out ≡ encode_utf8_all src.now) }
{
    utf8_length_of_latin1(src)
}

/// Returns the number of characters of Latin1 text in UTF-8: how many bytes `convert_utf8_to_latin1_lossy` writes, and
/// the length of a destination that `convert_utf8_to_latin1` requires.
pub fn latin1_length_from_utf8(src: &[u8]) -> usize
    requires latin1 { IsUtf8Latin1 src.now }
    ensures characters { result ≡ length (chars src.now) }
{
    latin1_length_of_utf8(src)
}
