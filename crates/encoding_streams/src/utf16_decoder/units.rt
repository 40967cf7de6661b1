//! The characters of bytes before which nothing is pending, as code units: tested where they are, then copied.

ghost use Rattle.std.specs.Prelude.{◌≡◌, ◌*◌, ◌≤◌, List, ℕ, [], length, take};
ghost use Rattle.std.specs.Char.Escape.{encode_utf16};
ghost use Rattle.encoding_text.specs.Surrogates.{IsValidUtf16};
ghost use Rattle.encoding_streams.specs.Utf16Steps.{Advances, AreValidUnitsOf, WritesUnits};

use super::paired::valid_prefix;
use encoding_kernels::utf16::source::UnitBytes;
use encoding_text::mem::utf16_valid_up_to;
use encoding_text::utf_16::{ByteOrder, decode_utf16_bytes};

/// The most code units that are tested before they are copied: their bytes are still in the nearest cache then.
const PIECE: usize = 4096;

/// Returns the number of code units of a prefix without an unpaired surrogate.
#[inline(always)]
fn valid_units(order: ByteOrder, src: &[u8]) -> usize
    ensures within { 2 * result ≤ length src.now }
    ensures valid { (units : List ℕ) × AreValidUnitsOf order (take (2 * result) src.now) units }
{
    let (pairs, _) = src.as_chunks::<2>();
    match order {
        ByteOrder::LittleEndian => valid_prefix(UnitBytes::<false> { pairs }),
        ByteOrder::BigEndian => valid_prefix(UnitBytes::<true> { pairs }),
    }
}

/// Converts as `convert_units` does, at most `PIECE` code units.
#[inline(always)]
fn convert_piece(order: ByteOrder, src: &[u8], dst: &mut [u16]) -> (usize, usize)
    ensures count { result.0 ≡ 2 * result.1 }
    ensures characters { Advances order encode_utf16 [] src.now dst.old dst.new
        result.0 result.1 [] }
{
    let count = (src.len() / 2).min(dst.len()).min(PIECE);
    let valid = valid_units(order, &src[..2 * count]);
    decode_utf16_bytes(order, &src[..2 * valid], dst)
}

/// Converts whole characters from the start of `src`, up to the first that doesn't fit, or before an unpaired surrogate
/// or the end. Returns how many bytes it read, and how many code units it wrote.
pub(super) fn convert_units(order: ByteOrder, src: &[u8], dst: &mut [u16]) -> (usize, usize)
    ensures { Advances order encode_utf16 [] src.now dst.old dst.new
        result.0 result.1 [] }
{
    let mut read = 0;
    let mut written = 0;
    loop {
        let (more, extra) = convert_piece(order, &src[read..], &mut dst[written..]);
        read += more;
        written += extra;
        // a piece may end inside a pair; a shorter one is the last
        if extra + 1 < PIECE {
            return (read, written);
        }
    }
}

/// Writes the first characters of `units`, as many as fit into `dst`. Returns how many code units it read and wrote.
pub(super) fn write_units(units: &[u16], dst: &mut [u16]) -> (usize, usize)
    requires valid { IsValidUtf16 units.now }
    ensures { WritesUnits encode_utf16 units.now dst.old dst.new result.0 result.1 }
{
    if units.len() <= dst.len() {
        dst[..units.len()].copy_from_slice(units);
        return (units.len(), units.len());
    }
    let count = utf16_valid_up_to(&units[..dst.len()]);
    dst[..count].copy_from_slice(&units[..count]);
    (count, count)
}
