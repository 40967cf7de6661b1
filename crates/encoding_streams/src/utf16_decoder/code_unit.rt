//! What a decoder writes: code units of UTF-16, or bytes of UTF-8.
ghost use Rattle.std.specs.Prelude.{◌≡◌, ℕ, ◌≤◌, List, [], length, encode_utf8};
ghost use Rattle.std.specs.Char.{IsScalar};
ghost use Rattle.std.specs.Char.Escape.{encode_utf16};
ghost use Rattle.encoding_text.specs.Surrogates.{IsValidUtf16};
ghost use Rattle.encoding_streams.specs.Utf16Steps.{Advances, WritesUnits};

use super::bytes::convert_bytes;
use super::units::{convert_units, write_units};
use encoding_text::mem::convert_utf16_to_utf8_partial;
use encoding_text::utf_16::ByteOrder;

/// A code unit of the output.
pub(crate) trait CodeUnit: Copy {
    // a scalar value in these code units
    ghost encode: { ℕ → List Self };

    // the most code units that a character takes
    ghost need: { ℕ };

    /// Returns the most code units that a character takes.
    fn max_units_per_scalar() -> usize
        ensures dst_length { result ≡ need }
        ensures holds_any { (c : ℕ) → IsScalar c → length (encode c) ≤ need };

    /// Converts the first characters of UTF-16LE or UTF-16BE, up to the first that doesn't fit into `dst`, or before an
    /// unpaired surrogate or the end. Returns how many bytes it read and how many code units it wrote.
    fn convert(order: ByteOrder, src: &[u8], dst: &mut [Self]) -> (usize, usize)
        ensures { Advances order encode [] src.now dst.old dst.new result.0 result.1 [] };

    /// Writes the first characters of `units`, as many as fit into `dst`. Returns how many code units it read and
    /// wrote.
    fn write(units: &[u16], dst: &mut [Self]) -> (usize, usize)
        requires valid { IsValidUtf16 units.now }
        ensures { WritesUnits encode units.now dst.old dst.new result.0 result.1 };
}

impl CodeUnit for u16 {
    ghost encode = { encode_utf16 };

    ghost need = { 2 };

    fn max_units_per_scalar() -> usize {
        2
    }

    fn convert(order: ByteOrder, src: &[u8], dst: &mut [u16]) -> (usize, usize) {
        convert_units(order, src, dst)
    }

    fn write(units: &[u16], dst: &mut [u16]) -> (usize, usize) {
        write_units(units, dst)
    }
}

impl CodeUnit for u8 {
    ghost encode = { encode_utf8 };

    ghost need = { 4 };

    fn max_units_per_scalar() -> usize {
        4
    }

    fn convert(order: ByteOrder, src: &[u8], dst: &mut [u8]) -> (usize, usize) {
        convert_bytes(order, src, dst)
    }

    fn write(units: &[u16], dst: &mut [u8]) -> (usize, usize) {
        convert_utf16_to_utf8_partial(units, dst)
    }
}
