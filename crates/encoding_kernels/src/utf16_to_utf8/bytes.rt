//! UTF-16LE and UTF-16BE to UTF-8 up to the first unpaired surrogate, without a copy of the code units.

ghost use Rattle.std.specs.Prelude.{ℕ, ◌+◌, ◌<◌, length, encode_utf8, IsTrue};
ghost use Rattle.encoding_kernels.specs.UnitBytes.{bytes_in, units_of};
ghost use Rattle.encoding_kernels.specs.Utf8Output.{IsCharacterAt, WritesBmp, WritesScalars};

use super::kinds::MOST_BYTES;
use super::tail::character_at;
use super::text::{convert_blocks, convert_paired_blocks};
use crate::scalar::{is_high_surrogate, utf8_length, utf16_length, write_scalar};
use crate::simd::width::{BASIC_LATIN_END, HALF_STRIDE, STRIDE};
use crate::utf16::bytes::copy_ascii_units;
use crate::utf16::source::{CodeUnits, UnitBytes};

#[inline(always)]
fn copy_ascii_prefix<const BIG: bool>(src: UnitBytes<'_, BIG>, dst: &mut [u8]) -> usize
    ensures { WritesBmp (units_of BIG (bytes_in src.entry.pairs.now)) dst.old dst.new
        result result }
{
    let count = src.count().min(dst.len());
    if count == 0 || src.unit_at(0) >= BASIC_LATIN_END {
        return 0;
    }
    copy_ascii_units(BIG, src.pairs.as_flattened(), &mut dst[..count])
}

/// ASCII and blocks of other code units by turns, until a surrogate is next or the end of `src` or `dst` is
/// near.
#[inline(always)]
fn convert_ascii_and_blocks<const BIG: bool>(
    src: UnitBytes<'_, BIG>,
    dst: &mut [u8],
) -> (usize, usize)
    ensures { WritesBmp (units_of BIG (bytes_in src.entry.pairs.now)) dst.old dst.new
        result.0 result.1 }
{
    let count = src.count();
    let mut read = 0;
    let mut written = 0;
    loop {
        let ascii = copy_ascii_prefix(src.skip(read), &mut dst[written..]);
        read += ascii;
        written += ascii;
        if read == count {
            return (read, written);
        }
        let (units, bytes) = convert_blocks::<_, true>(src.skip(read), &mut dst[written..]);
        read += units;
        written += bytes;
        if units == 0 || read == count || src.unit_at(read) >= BASIC_LATIN_END {
            return (read, written);
        }
    }
}

/// Also returns whether to continue with the next code units at once. If not, a single character stopped the
/// blocks, or the end of `src` or `dst` is near.
#[inline(always)]
fn convert_blocks_and_pairs<const BIG: bool>(
    src: UnitBytes<'_, BIG>,
    dst: &mut [u8],
) -> (usize, usize, bool)
    ensures converted { WritesScalars (units_of BIG (bytes_in src.entry.pairs.now)) dst.old dst.new
        result.0 result.1 }
    ensures progress { IsTrue result.2 → 0 < result.0 }
{
    let (read, written) = convert_ascii_and_blocks(src, dst);
    if read == src.count() || !is_high_surrogate(src.unit_at(read)) {
        return (read, written, false);
    }
    let (units, bytes) = convert_paired_blocks(src.skip(read), &mut dst[written..]);
    (read + units, written + bytes, units > 0)
}

/// How many characters to convert one at a time before trying blocks: all if fewer than eight units are left.
#[inline(always)]
fn characters_before_retry(left: usize, others: usize) -> usize
    ensures { 0 < others → 0 < result }
{
    if left < HALF_STRIDE {
        HALF_STRIDE
    } else {
        others
    }
}

#[inline(never)]
pub fn convert_up_to_unpaired<const BIG: bool>(
    src: UnitBytes<'_, BIG>,
    dst: &mut [u8],
) -> (usize, usize)
    ensures converted { WritesScalars (units_of BIG (bytes_in src.entry.pairs.now)) dst.old dst.new
        result.0 result.1 }
    ensures stops { (scalar : ℕ)
        → IsCharacterAt (units_of BIG (bytes_in src.entry.pairs.now)) result.0 scalar
        → length dst.old < result.1 + length (encode_utf8 scalar) }
{
    let mut read = 0;
    let mut written = 0;
    let mut singles = characters_before_retry(src.count(), 0);
    while read < src.count() {
        if singles == 0 {
            let (units, bytes, goes_on) = convert_blocks_and_pairs(
                src.skip(read),
                &mut dst[written..],
            );
            read += units;
            written += bytes;
            if !goes_on {
                // the one that stopped the blocks, or several where no block fits into the rest of `dst`
                let others = if dst.len() - written < MOST_BYTES {
                    STRIDE
                } else {
                    1
                };
                singles = characters_before_retry(src.count() - read, others);
            }
        } else {
            let Some(scalar) = character_at(src, read) else {
                break;
            };
            if utf8_length(scalar) > dst.len() - written {
                break;
            }
            written += write_scalar(scalar, &mut dst[written..]);
            read += utf16_length(scalar);
            singles -= 1;
        }
    }
    (read, written)
}
