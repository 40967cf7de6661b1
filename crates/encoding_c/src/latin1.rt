//! Latin1 to UTF-8 and back, into a destination as long as the text. The rest of `dst` is unchanged.

ghost use Rattle.std.specs.Prelude.{◌≡◌, ◌<◌, ◌≤◌, length, encode_utf8_all};
ghost use Rattle.std.specs.Str.{chars};
ghost use Rattle.encoding_definitions.specs.Prefixes.{WritesPrefix};
ghost use Rattle.encoding_definitions.specs.Latin1.{IsUtf8Latin1};

use crate::status::INVALID_ARGUMENT;
use encoding_text::mem;

/// Writes the text whose characters are the bytes, and returns its length. Returns `INVALID_ARGUMENT` if `dst` is
/// shorter.
#[unsafe(no_mangle)]
pub extern "C" fn encoding_text_mem_decode_latin1(src: &[u8], dst: &mut [u8]) -> usize
    ensures written { length (encode_utf8_all src.now) ≤ length dst.old
        → WritesPrefix dst.old dst.new result (encode_utf8_all src.now) }
    ensures invalid_argument { length dst.old < length (encode_utf8_all src.now)
        → (result ≡ usize.MAX) × (dst.new ≡ dst.old) }
{
    if dst.len() < mem::utf8_length_from_latin1(src) {
        return INVALID_ARGUMENT;
    }
    let (_, written) = mem::convert_latin1_to_utf8_partial(src, dst);
    written
}

/// Writes the scalar value of each character of Latin1 text in UTF-8 as a byte, and returns the number of bytes
/// written. Returns `INVALID_ARGUMENT` if `dst` is shorter than that, or `src` isn't the UTF-8 of Latin1 text.
#[unsafe(no_mangle)]
pub extern "C" fn encoding_text_mem_encode_latin1(src: &[u8], dst: &mut [u8]) -> usize
    ensures written { IsUtf8Latin1 src.now → length (chars src.now) ≤ length dst.old
        → WritesPrefix dst.old dst.new result (chars src.now) }
    ensures too_short { length dst.old < length (chars src.now)
        → (result ≡ usize.MAX) × (dst.new ≡ dst.old) }
    ensures other { ¬ (IsUtf8Latin1 src.now) → (result ≡ usize.MAX) × (dst.new ≡ dst.old) }
{
    if !mem::is_utf8_latin1(src) || dst.len() < mem::latin1_length_from_utf8(src) {
        return INVALID_ARGUMENT;
    }
    mem::convert_utf8_to_latin1(src, dst)
}
