//! Conversions of bytes with U+FFFD for each malformed sequence, into a destination of any length: also of exactly the
//! length of the text. A conversion leaves the rest of `dst` unchanged.

ghost use Rattle.std.specs.Prelude.{ℕ, encode_utf8};
ghost use Rattle.std.specs.Char.Escape.{encode_utf16};
ghost use Rattle.encoding_text.specs.Replacing.{ConvertsParts};

use crate::decoder::replacing::convert_parts;

/// Converts the first characters of `src` to UTF-16, as many as fit into `dst`, with U+FFFD for each malformed
/// sequence. Returns how many bytes it read and how many code units it wrote. Encoding Standard, UTF-8 decode without
/// BOM.
///
/// If `dst` has the length that `utf16_length_from_utf8` returns, all of `src` is read. If it is shorter, some of `src`
/// is left. No character is written in part. An incomplete sequence at the end of `src` is a malformed sequence.
pub fn convert_utf8_to_utf16_partial(src: &[u8], dst: &mut [u16]) -> (usize, usize)
    ensures { (replaced : ℕ) × ConvertsParts encode_utf16 src.now dst.old dst.new result.0 result.1
        replaced }
{
    let (read, written, _) = convert_parts(src, dst);
    (read, written)
}

/// Writes the first characters of `src`, as many as fit into `dst`, with U+FFFD for each malformed sequence. Returns
/// how many bytes it read, how many it wrote, and how many malformed sequences it replaced. Encoding Standard, UTF-8
/// decode without BOM.
///
/// If `dst` has the length that `repaired_utf8_length` returns, all of `src` is read. If it is shorter, some of `src`
/// is left. No character is written in part. An incomplete sequence at the end of `src` is a malformed sequence.
pub fn repair_slice_partial(src: &[u8], dst: &mut [u8]) -> (usize, usize, usize)
    ensures { ConvertsParts encode_utf8 src.now dst.old dst.new result.0 result.1 result.2 }
{
    convert_parts(src, dst)
}
