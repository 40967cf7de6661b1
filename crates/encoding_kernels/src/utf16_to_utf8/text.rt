//! UTF-8 of code units by blocks of sixteen: the calls for a whole text, and the loops over runs of one kind of
//! blocks. A conversion of blocks returns how many code units it read and how many bytes it wrote.

ghost use Rattle.std.specs.Prelude.{◌≡◌, ◌↔◌, ◌⊎◌, ◌+◌, ◌*◌, ◌<◌, ◌≤◌, length, take, IsTrue};
ghost use Rattle.encoding_definitions.specs.Prefixes.{WritesPrefix};
ghost use Rattle.encoding_definitions.specs.Utf16.{IsUtf8OfPrefix};
ghost use Rattle.encoding_kernels.specs.Utf8Output.{ConvertsDue, ConvertsPrefix, WritesBmp, WritesScalars};

use super::kinds::{Ascii, Mixed, ThreeByte, TwoByte, convert_run, convert_spilling_run};
use super::mixed::SPILL;
use super::pairs::{are_two_byte_or_paired, write_two_byte_or_paired};
use super::tail::{convert_first_sixteen, convert_spilled};
use crate::scalar::is_surrogate;
use crate::simd::width::{BASIC_LATIN_END, HALF_STRIDE, STRIDE};
use crate::tuning::{ASCII_RUN, MIXED_RUN, TWO_BYTE_RUN};
use crate::utf16::source::CodeUnits;
use std::simd::prelude::*;

/// Also stops if many blocks in a row are ASCII or have three bytes for each unit.
#[inline(always)]
fn by_kinds<S: CodeUnits, const RESTORES: bool>(
    src: S,
    dst: &mut [u8],
    due: usize,
) -> (usize, usize, usize)
    requires dst_length { 3 * length (S.units src) ≤ length dst.old }
    requires due { (due ≤ 16) × (0 < due → 16 ≤ length (S.units src)) }
    ensures converted { ConvertsDue (S.units src) dst.old dst.new due
        result.0 result.1 result.2 }
    ensures restored { IsTrue RESTORES → due ≡ 0 → result.2 ≡ 0 }
{
    let mut read = 0;
    let mut written = 0;
    let mut spilled = due;
    while src.count() - read >= STRIDE + SPILL {
        let (units, bytes, left) = convert_run::<_, _, RESTORES>(
            &Ascii,
            src.skip(read),
            &mut dst[written..],
            spilled,
            ASCII_RUN,
        );
        read += units;
        written += bytes;
        spilled = left;
        if units == ASCII_RUN {
            break;
        }
        let (units, bytes, left) = convert_spilling_run::<_, _, RESTORES>(
            &TwoByte,
            src.skip(read),
            &mut dst[written..],
            spilled,
            TWO_BYTE_RUN,
        );
        read += units;
        written += bytes;
        spilled = left;
        if units == 0 {
            let (units, bytes, left) = convert_spilling_run::<_, _, RESTORES>(
                &Mixed,
                src.skip(read),
                &mut dst[written..],
                spilled,
                MIXED_RUN,
            );
            read += units;
            written += bytes;
            spilled = left;
            if units == 0 || bytes == 3 * MIXED_RUN {
                break;
            }
        }
    }
    (read, written, spilled)
}

#[inline(never)]
fn convert_three_byte_blocks<S: CodeUnits>(
    src: S,
    dst: &mut [u8],
    due: usize,
) -> (usize, usize, usize)
    requires dst_length { 3 * length (S.units src) ≤ length dst.old }
    requires due { (due ≤ 16) × (0 < due → 16 ≤ length (S.units src)) }
    ensures converted { ConvertsDue (S.units src) dst.old dst.new due
        result.0 result.1 result.2 }
    ensures restored { due ≡ 0 → result.2 ≡ 0 }
{
    convert_run::<_, _, true>(&ThreeByte, src, dst, due, src.count())
}

/// Also stops if many blocks in a row are ASCII.
#[inline(always)]
fn with_three_byte_runs<S: CodeUnits, const RESTORES: bool>(
    src: S,
    dst: &mut [u8],
) -> (usize, usize, usize)
    requires dst_length { 3 * length (S.units src) ≤ length dst.old }
    ensures converted { ConvertsDue (S.units src) dst.old dst.new 0
        result.0 result.1 result.2 }
    ensures restored { IsTrue RESTORES → result.2 ≡ 0 }
{
    let mut read = 0;
    let mut written = 0;
    let mut spilled = 0;
    while src.count() - read >= STRIDE + SPILL {
        let (units, bytes, left) = by_kinds::<S, RESTORES>(
            src.skip(read),
            &mut dst[written..],
            spilled,
        );
        read += units;
        written += bytes;
        spilled = left;
        if !RESTORES && spilled == 0 {
            break;
        }
        let (units, bytes, left) = convert_three_byte_blocks(
            src.skip(read),
            &mut dst[written..],
            spilled,
        );
        read += units;
        written += bytes;
        spilled = left;
        if units == 0 {
            break;
        }
    }
    (read, written, spilled)
}

/// Also converts what overwrites the spill of the last block.
#[inline(always)]
fn settled<S: CodeUnits, const RESTORES: bool>(src: S, dst: &mut [u8]) -> (usize, usize)
    ensures converted { ConvertsPrefix (S.units src) dst.old dst.new result.0 result.1 }
    ensures restored { IsTrue RESTORES
        → WritesBmp (S.units src) dst.old dst.new result.0 result.1 }
{
    let end = src.count().min(dst.len() / 3);
    let (read, written, spilled) = with_three_byte_runs::<S, RESTORES>(src.first(end), dst);
    if spilled == 0 {
        return (read, written);
    }
    let (more, extra) = convert_spilled(src.skip(read), &mut dst[written..]);
    (read + more, written + extra)
}

/// ASCII begins a block only near the end.
#[inline(always)]
fn begins_block(unit: u16, left: usize) -> bool
    ensures { IsTrue result ↔ (((0xD800 ≤ unit) × (unit ≤ 0xDFFF) → ⊥)
        × ((0x80 ≤ unit) ⊎ (left < 32))) }
{
    !is_surrogate(unit) && (unit >= BASIC_LATIN_END || left < STRIDE + SPILL)
}

/// Converts blocks until ASCII or a surrogate is next. The last 31 units may be ASCII.
pub fn convert_blocks<S: CodeUnits, const RESTORES: bool>(src: S, dst: &mut [u8]) -> (usize, usize)
    ensures prefix { IsUtf8OfPrefix (S.units src) result.0 (take result.1 dst.new) }
    ensures unchanged_after { WritesPrefix dst.old dst.new result.1 (take result.1 dst.new) }
    ensures within { result.0 ≤ length (S.units src) }
    ensures restored { IsTrue RESTORES
        → WritesBmp (S.units src) dst.old dst.new result.0 result.1 }
{
    let mut read = 0;
    let mut written = 0;
    while src.count() - read >= HALF_STRIDE && begins_block(src.unit_at(read), src.count() - read) {
        let (dense, many) = settled::<S, RESTORES>(src.skip(read), &mut dst[written..]);
        read += dense;
        written += many;
        if read == src.count() || !begins_block(src.unit_at(read), src.count() - read) {
            break;
        }
        let (first, some) = convert_first_sixteen(src.skip(read), &mut dst[written..]);
        read += first;
        written += some;
        if first == 0 {
            break;
        }
    }
    (read, written)
}

/// Converts blocks while they have surrogate pairs and their other units are below U+0800.
#[inline(never)]
pub fn convert_paired_blocks<S: CodeUnits>(src: S, dst: &mut [u8]) -> (usize, usize)
    ensures { WritesScalars (S.units src) dst.old dst.new result.0 result.1 }
{
    let mut read = 0;
    let mut written = 0;
    while src.count() - read > STRIDE
        && dst.len() - written >= 32
        && src.sixteen(read).simd_ge(u16x16::splat(0x800)).any()
        && are_two_byte_or_paired(src, read)
    {
        let (units, bytes) = write_two_byte_or_paired(src, read, dst, written);
        read += units;
        written += bytes;
    }
    (read, written)
}
