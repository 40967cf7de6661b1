//! Conversions into the start of a text, which is well-formed before the call and after it. What an overwritten
//! character leaves after the output becomes zero.

ghost use Rattle.std.specs.Prelude.{◌≡◌, ◌*◌, ◌≤◌, [], ◌∷◌, length, take, encode_utf8, encode_utf8_all};
ghost use Rattle.std.specs.Str.{IsUtf8};
ghost use Rattle.encoding_definitions.specs.Clearing.{clear_continuation, cleared_prefix, WritesAndClears};
ghost use Rattle.encoding_definitions.specs.Prefixes.{IsLongestFittingPrefix};
ghost use Rattle.encoding_definitions.specs.Utf16.{IsUtf8OfLongestPrefix, IsUtf8OfUnits};

use crate::mem::latin1::{convert_latin1_to_utf8, convert_latin1_to_utf8_partial};
use crate::utf_8::from_utf16::{convert_utf16_to_utf8, convert_utf16_to_utf8_partial};
use encoding_kernels::scalar::is_continuation;

/// How many bytes after the output the conversions from Latin1 always set to zero.
const LATIN1_ZEROS: usize = 16;

/// Converts the first characters of `src` from UTF-16 to UTF-8, as many as fit into `dst`. Returns how many code units
/// it read and how many bytes it wrote: `convert_utf16_to_utf8_partial`, into a text.
///
/// `dst` is well-formed before and after. The continuation bytes directly after the output become zero, and the rest of
/// `dst` is unchanged.
pub fn convert_utf16_to_str_partial(src: &[u16], dst: &mut [u8]) -> (usize, usize)
    requires text { IsUtf8 dst.old }
    ensures longest { IsUtf8OfLongestPrefix src.now (length dst.old) result.0
        (take result.1 dst.new) }
    ensures within { result.0 ≤ length src.now }
    ensures unchanged_after { WritesAndClears 0 dst.old dst.new result.1 (take result.1 dst.new) }
    ensures text { IsUtf8 dst.new }
{
    let (read, written) = convert_utf16_to_utf8_partial(src, dst);
    clear_continuation_bytes(&mut dst[written..]);
    (read, written)
}

/// Converts all of `src` from UTF-16 to UTF-8, and returns how many bytes it wrote: `convert_utf16_to_utf8`, into a
/// text. `dst` has at least three bytes for each code unit of `src`.
///
/// `dst` is well-formed before and after. The continuation bytes directly after the output become zero, and the rest of
/// `dst` is unchanged.
pub fn convert_utf16_to_str(src: &[u16], dst: &mut [u8]) -> usize
    requires dst_length { 3 * length src.now ≤ length dst.old }
    requires text { IsUtf8 dst.old }
    ensures all { IsUtf8OfUnits src.now (take result dst.new) }
    ensures unchanged_after { WritesAndClears 0 dst.old dst.new result (take result dst.new) }
    ensures text { IsUtf8 dst.new }
{
    let end = convert_utf16_to_utf8(src, dst);
    clear_continuation_bytes(&mut dst[end..]);
    end
}

/// Writes the UTF-8 of the longest prefix of `src` whose UTF-8 fits into `dst`. Returns how many bytes it read and how
/// many it wrote: `convert_latin1_to_utf8_partial`, into a text.
///
/// `dst` is well-formed before and after. The 16 bytes after the output, or all if there are fewer, and then the
/// continuation bytes directly after those become zero. The rest of `dst` is unchanged.
pub fn convert_latin1_to_str_partial(src: &[u8], dst: &mut [u8]) -> (usize, usize)
    requires text { IsUtf8 dst.old }
    ensures prefix { IsLongestFittingPrefix (λ b. b ∷ []) encode_utf8 src.now
        (length dst.old) result.0
        (encode_utf8_all (take result.0 src.now)) }
    ensures written { WritesAndClears 16 dst.old dst.new result.1
        (encode_utf8_all (take result.0 src.now)) }
    ensures text { IsUtf8 dst.new }
{
    let (read, written) = convert_latin1_to_utf8_partial(src, dst);
    clear(&mut dst[written..], LATIN1_ZEROS);
    (read, written)
}

/// Writes the UTF-8 of each byte as a character, and returns how many bytes it wrote: `convert_latin1_to_utf8`, into a
/// text. `dst` is at least twice as long as `src`.
///
/// `dst` is well-formed before and after. The 16 bytes after the output, or all if there are fewer, and then the
/// continuation bytes directly after those become zero. The rest of `dst` is unchanged.
pub fn convert_latin1_to_str(src: &[u8], dst: &mut [u8]) -> usize
    requires dst_length { 2 * length src.now ≤ length dst.old }
    requires text { IsUtf8 dst.old }
    ensures written { WritesAndClears 16 dst.old dst.new result (encode_utf8_all src.now) }
    ensures text { IsUtf8 dst.new }
{
    let end = convert_latin1_to_utf8(src, dst);
    clear(&mut dst[end..], LATIN1_ZEROS);
    end
}

/// Sets the continuation bytes at the start of `bytes` to zero: after a write into a text, what is left of a character
/// whose first bytes were overwritten. The rest is unchanged. It reads no byte after the first that is no continuation
/// byte.
#[tactic(auto, using(crate::proofs::DefinitionRules::clearing))]
#[inline(never)]
pub fn clear_continuation_bytes(bytes: &mut [u8])
    ensures { bytes.new ≡ clear_continuation bytes.old }
{
    let mut at = 0;
    while at < bytes.len() && is_continuation(bytes[at]) {
        bytes[at] = 0;
        at += 1;
    }
}

fn clear(bytes: &mut [u8], zeros: usize)
    ensures { bytes.new ≡ cleared_prefix zeros bytes.old }
{
    let at = zeros.min(bytes.len());
    bytes[..at].fill(0);
    clear_continuation_bytes(&mut bytes[at..]);
}
