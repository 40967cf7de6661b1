//! Conversions into a prefix of a text, which is well-formed before the call and after it. Returns `INVALID_ARGUMENT`
//! if it isn't before, or if it is too short. The rest of `dst`, after the bytes that become zero, is unchanged.

ghost use Rattle.std.specs.Prelude.{◌≡◌, ◌*◌, ◌<◌, ◌≤◌, ◌↔◌, [], ◌∷◌, length, take, encode_utf8, encode_utf8_all};
ghost use Rattle.std.specs.Prelude.{IsTrue, IsUtf8};
ghost use Rattle.encoding_definitions.specs.Clearing.{WritesAndClears};
ghost use Rattle.encoding_definitions.specs.Prefixes.{IsLongestFittingPrefix};
ghost use Rattle.encoding_definitions.specs.Utf16.{IsUtf8OfLongestPrefix, IsUtf8OfUnits};

use crate::status::{EncodingProgress, INVALID_ARGUMENT, INVALID_ARGUMENT_PROGRESS};
use encoding_text::mem;
use encoding_text::utf_8::utf8_valid_up_to;

/// Returns whether the bytes are well-formed.
pub(crate) fn is_text(bytes: &[u8]) -> bool
    ensures { IsTrue result ↔ IsUtf8 bytes.now }
{
    utf8_valid_up_to(bytes) == bytes.len()
}

/// Converts the longest prefix of whole characters that fits from UTF-16 to UTF-8. The continuation bytes directly
/// after what is written become zero. Returns `INVALID_ARGUMENT` for both counts if `dst` is ill-formed.
#[unsafe(no_mangle)]
pub extern "C" fn encoding_text_mem_convert_utf16_to_str_partial(
    src: &[u16],
    dst: &mut [u8],
) -> EncodingProgress
    ensures longest { IsUtf8 dst.old
        → IsUtf8OfLongestPrefix src.now (length dst.old) result.read (take result.written dst.new) }
    ensures unchanged_after { IsUtf8 dst.old
        → WritesAndClears 0 dst.old dst.new result.written (take result.written dst.new) }
    ensures text { IsUtf8 dst.old → IsUtf8 dst.new }
    ensures invalid_argument { ¬ (IsUtf8 dst.old)
        → (result.read ≡ usize.MAX) × (result.written ≡ usize.MAX) × (dst.new ≡ dst.old) }
{
    if !is_text(dst) {
        return INVALID_ARGUMENT_PROGRESS;
    }
    let (read, written) = mem::convert_utf16_to_str_partial(src, dst);
    EncodingProgress { read, written }
}

/// Converts all of `src` from UTF-16 to UTF-8, and returns the number of bytes written. The continuation bytes directly
/// after these become zero. Returns `INVALID_ARGUMENT` if `dst` is ill-formed, or less than three times as long as
/// `src`.
#[unsafe(no_mangle)]
pub extern "C" fn encoding_text_mem_convert_utf16_to_str(src: &[u16], dst: &mut [u8]) -> usize
    ensures all { IsUtf8 dst.old → 3 * length src.now ≤ length dst.old
        → IsUtf8OfUnits src.now (take result dst.new) }
    ensures unchanged_after { IsUtf8 dst.old → 3 * length src.now ≤ length dst.old
        → WritesAndClears 0 dst.old dst.new result (take result dst.new) }
    ensures text { IsUtf8 dst.old → IsUtf8 dst.new }
    ensures too_short { length dst.old < 3 * length src.now
        → (result ≡ usize.MAX) × (dst.new ≡ dst.old) }
    ensures other { ¬ (IsUtf8 dst.old) → (result ≡ usize.MAX) × (dst.new ≡ dst.old) }
{
    if dst.len() / 3 < src.len() || !is_text(dst) {
        return INVALID_ARGUMENT;
    }
    mem::convert_utf16_to_str(src, dst)
}

/// Writes the UTF-8 of the longest prefix of Latin1 whose UTF-8 fits. The next sixteen bytes, or all if there are
/// fewer, and the continuation bytes directly after those become zero. Returns `INVALID_ARGUMENT` for both counts if
/// `dst` is ill-formed.
#[unsafe(no_mangle)]
pub extern "C" fn encoding_text_mem_convert_latin1_to_str_partial(
    src: &[u8],
    dst: &mut [u8],
) -> EncodingProgress
    ensures prefix { IsUtf8 dst.old
        → IsLongestFittingPrefix (λ b. b ∷ []) encode_utf8 src.now (length dst.old) result.read
        (encode_utf8_all (take result.read src.now)) }
    ensures written { IsUtf8 dst.old
        → WritesAndClears 16 dst.old dst.new result.written
        (encode_utf8_all (take result.read src.now)) }
    ensures text { IsUtf8 dst.old → IsUtf8 dst.new }
    ensures invalid_argument { ¬ (IsUtf8 dst.old)
        → (result.read ≡ usize.MAX) × (result.written ≡ usize.MAX) × (dst.new ≡ dst.old) }
{
    if !is_text(dst) {
        return INVALID_ARGUMENT_PROGRESS;
    }
    let (read, written) = mem::convert_latin1_to_str_partial(src, dst);
    EncodingProgress { read, written }
}

/// Writes the UTF-8 of each byte as a character, and returns its length. The next sixteen bytes, or all if there are
/// fewer, and the continuation bytes directly after those become zero. Returns `INVALID_ARGUMENT` if `dst` is
/// ill-formed, or less than twice as long as `src`.
#[unsafe(no_mangle)]
pub extern "C" fn encoding_text_mem_convert_latin1_to_str(src: &[u8], dst: &mut [u8]) -> usize
    ensures written { IsUtf8 dst.old → 2 * length src.now ≤ length dst.old
        → WritesAndClears 16 dst.old dst.new result (encode_utf8_all src.now) }
    ensures text { IsUtf8 dst.old → IsUtf8 dst.new }
    ensures too_short { length dst.old < 2 * length src.now
        → (result ≡ usize.MAX) × (dst.new ≡ dst.old) }
    ensures other { ¬ (IsUtf8 dst.old) → (result ≡ usize.MAX) × (dst.new ≡ dst.old) }
{
    if dst.len() / 2 < src.len() || !is_text(dst) {
        return INVALID_ARGUMENT;
    }
    mem::convert_latin1_to_str(src, dst)
}
