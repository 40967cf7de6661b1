//! Exact counts, of any source: its characters, and the bytes of its repaired text. Each call writes nothing.

ghost use Rattle.std.specs.Prelude.{◌≡◌, ◌≤◌, List, length, encode_utf8, IfSome, SomeIff};
ghost use Rattle.std.specs.Str.{chars};
ghost use Rattle.encoding_definitions.specs.Parts.{Part, ArePartsOf, lossy_utf8};
ghost use Rattle.encoding_definitions.specs.Utf16.{Part16, ArePartsOf16};
ghost use Rattle.encoding_text.specs.Replacing.{SufficesForParts};

use crate::utf_8::utf8_valid_up_to;
use encoding_kernels::utf8::count::parts_of_utf8;
use encoding_kernels::utf8::known::characters_of_text;
use encoding_kernels::utf8::repaired::repaired_length;
use encoding_kernels::utf16::count::parts_of_units;

/// Returns the number of characters in `src`, with one for each malformed sequence: how many `char`s the text of
/// `String::from_utf8_lossy` has.
///
/// `src` may be any bytes. An incomplete sequence at its end is one malformed sequence. Encoding Standard, UTF-8 decode
/// without BOM.
pub fn utf8_count(src: &[u8]) -> usize
    ensures { (parts : List Part) × ArePartsOf src.now parts × (result ≡ length parts) }
{
    parts_of_utf8(src)
}

/// Returns the number of characters of a text: what `src.chars().count()` returns. It looks at each byte by itself, so it
/// takes less time than `utf8_count`.
pub fn str_count(src: &str) -> usize
    ensures { result ≡ length (chars src.now) }
{
    characters_of_text(src.as_bytes())
}

/// Returns the number of characters in `src`, with one for each unpaired surrogate: how many items
/// `char::decode_utf16` yields.
///
/// `src` may be any code units. Unicode Standard, section 3.9, UTF-16.
pub fn utf16_count(src: &[u16]) -> usize
    ensures { (parts : List Part16) × ArePartsOf16 src.now parts × (result ≡ length parts) }
{
    parts_of_units(src)
}

/// Returns the length in bytes of `src` with U+FFFD for each malformed sequence: what `repair_slice` writes. `None` if
/// the length exceeds `usize::MAX`.
///
/// `src` may be any bytes. With a destination of this length, `repair_slice_partial` reads all of them. The length of
/// the same text in UTF-16 is `utf16_length_from_utf8`. Encoding Standard, UTF-8 decode without BOM.
pub fn repaired_utf8_length(src: &[u8]) -> Option<usize>
    ensures length { (parts : List Part) × ArePartsOf src.now parts
        × SomeIff result (length (lossy_utf8 parts) ≤ usize.MAX) (length (lossy_utf8 parts)) }
    ensures suffices { IfSome result (λ n. SufficesForParts encode_utf8 src.now n) }
{
    let valid = utf8_valid_up_to(src);
    repaired_length(&src[valid..])?.checked_add(valid)
}
