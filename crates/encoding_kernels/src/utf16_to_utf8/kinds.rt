//! The kinds of blocks of sixteen code units: each has its test and its conversion, and one loop converts a run of
//! them.

ghost use Rattle.std.specs.Prelude.{◌≡◌, ℕ, List, IsTrue, ◌+◌, ◌*◌, ◌<◌, ◌≤◌, length, slice_index};
ghost use Rattle.encoding_kernels.specs.Utf8Output.{ConvertsDue, StoresBlock};

use super::mixed::{SPILL, are_non_surrogate, store_mixed, write_sixteen};
use super::three_byte::{are_three_byte, write_three_byte};
use super::two_byte::{are_ascii, are_two_byte, store_two_byte, write_two_byte};
use crate::simd::width::STRIDE;
use crate::utf16::source::CodeUnits;
use std::simd::prelude::*;

/// The most bytes that a block writes.
pub(super) const MOST_BYTES: usize = 48;

/// A kind of blocks.
pub(super) trait Block {
    // what its test says of sixteen code units
    ghost takes_all: { List ℕ → Type 0 };

    fn takes(&self, units: u16x16) -> bool
        ensures { IsTrue result → takes_all units };

    /// Returns how many bytes it wrote, and how many after these it may have changed.
    fn convert(&self, units: u16x16, dst: &mut [u8], at: usize, restores: bool) -> (usize, usize)
        requires dst_length { (length units ≡ 16) × (at + 64 ≤ length dst.old) }
        requires kind { takes_all units }
        ensures stored { StoresBlock units dst.old dst.new at result.0 result.1 }
        ensures restored { IsTrue restores → result.1 ≡ 0 };
}

/// Blocks of ASCII.
pub(super) struct Ascii;

impl Block for Ascii {
    ghost takes_all = { λ units. (k : ℕ) → k < 16 → slice_index units k < 0x80 };

    #[inline(always)]
    fn takes(&self, units: u16x16) -> bool {
        are_ascii(units)
    }

    #[inline(always)]
    fn convert(&self, units: u16x16, dst: &mut [u8], at: usize, restores: bool) -> (usize, usize) {
        units.cast::<u8>().copy_to_slice(&mut dst[at..]);
        (STRIDE, 0)
    }
}

/// Blocks of code units below U+0800.
pub(super) struct TwoByte;

impl Block for TwoByte {
    ghost takes_all = { λ units. (k : ℕ) → k < 16 → slice_index units k < 0x800 };

    #[inline(always)]
    fn takes(&self, units: u16x16) -> bool {
        are_two_byte(units)
    }

    #[inline(always)]
    fn convert(&self, units: u16x16, dst: &mut [u8], at: usize, restores: bool) -> (usize, usize) {
        if restores {
            return (write_two_byte(units, dst, at), 0);
        }
        (store_two_byte(units, dst, at), SPILL)
    }
}

/// Blocks of code units from U+0800 on.
pub(super) struct ThreeByte;

impl Block for ThreeByte {
    ghost takes_all = { λ units. (k : ℕ) → k < 16 → (0x800 ≤ slice_index units k)
        × ((0xD800 ≤ slice_index units k) × (slice_index units k ≤ 0xDFFF) → ⊥) };

    #[inline(always)]
    fn takes(&self, units: u16x16) -> bool {
        are_three_byte(units)
    }

    #[inline(always)]
    fn convert(&self, units: u16x16, dst: &mut [u8], at: usize, restores: bool) -> (usize, usize) {
        write_three_byte(units, dst, at);
        (MOST_BYTES, 0)
    }
}

/// Blocks of any code units but ASCII alone and surrogates.
pub(super) struct Mixed;

impl Block for Mixed {
    ghost takes_all = { λ units. (k : ℕ) → k < 16
        → (0xD800 ≤ slice_index units k) × (slice_index units k ≤ 0xDFFF) → ⊥ };

    #[inline(always)]
    fn takes(&self, units: u16x16) -> bool {
        !are_ascii(units) && are_non_surrogate(units)
    }

    #[inline(always)]
    fn convert(&self, units: u16x16, dst: &mut [u8], at: usize, restores: bool) -> (usize, usize) {
        if restores {
            return (write_sixteen(units, dst, at), 0);
        }
        (store_mixed(units, dst, at), SPILL)
    }
}

/// The first `due` bytes of `dst` hold the spill of the block before, which this run overwrites. Returns
/// units read, bytes written, and the spill that it leaves. With `RESTORES`, each block restores what follows
/// it.
#[inline(always)]
pub(super) fn convert_run<S: CodeUnits, T: Block, const RESTORES: bool>(
    block: &T,
    src: S,
    dst: &mut [u8],
    due: usize,
    most: usize,
) -> (usize, usize, usize)
    requires dst_length { 3 * length (S.units src) ≤ length dst.old }
    requires due { (due ≤ 16) × (0 < due → 16 ≤ length (S.units src)) }
    ensures converted { ConvertsDue (S.units src) dst.old dst.new due
        result.0 result.1 result.2 }
    ensures restored { IsTrue RESTORES → due ≡ 0 → result.2 ≡ 0 }
{
    let mut read = 0;
    let mut written = 0;
    let mut spilled = due;
    let end = most.min(src.count().saturating_sub(STRIDE + SPILL - 1));
    while read < end {
        let units = src.sixteen(read);
        if !block.takes(units) {
            break;
        }
        let (bytes, spill) = block.convert(units, dst, written, RESTORES);
        read += STRIDE;
        written += bytes;
        spilled = spill;
    }
    (read, written, spilled)
}

/// Only the last block restores what follows: each other is followed by one that overwrites it. A load from
/// `dst` for each block would take longer than its stores.
#[inline(always)]
fn convert_joined_run<S: CodeUnits, T: Block>(
    block: &T,
    src: S,
    dst: &mut [u8],
    due: usize,
    most: usize,
) -> (usize, usize, usize)
    requires dst_length { 3 * length (S.units src) ≤ length dst.old }
    requires due { (due ≤ 16) × (0 < due → 16 ≤ length (S.units src)) }
    ensures converted { ConvertsDue (S.units src) dst.old dst.new due
        result.0 result.1 result.2 }
    ensures restored { due ≡ 0 → result.2 ≡ 0 }
{
    let blocks_end = src.count().saturating_sub(STRIDE + SPILL - 1);
    let end = most.min(blocks_end);
    if end == 0 {
        return (0, 0, due);
    }
    let mut units = src.sixteen(0);
    if !block.takes(units) {
        return (0, 0, due);
    }
    let mut read = 0;
    let mut written = 0;
    while read + STRIDE < end {
        let next = src.sixteen(read + STRIDE);
        if !block.takes(next) {
            break;
        }
        let (bytes, _) = block.convert(units, dst, written, false);
        units = next;
        read += STRIDE;
        written += bytes;
    }
    let (bytes, spill) = block.convert(units, dst, written, true);
    (read + STRIDE, written + bytes, spill)
}

/// By blocks that may change bytes after their own.
#[inline(always)]
pub(super) fn convert_spilling_run<S: CodeUnits, T: Block, const RESTORES: bool>(
    block: &T,
    src: S,
    dst: &mut [u8],
    due: usize,
    most: usize,
) -> (usize, usize, usize)
    requires dst_length { 3 * length (S.units src) ≤ length dst.old }
    requires due { (due ≤ 16) × (0 < due → 16 ≤ length (S.units src)) }
    ensures converted { ConvertsDue (S.units src) dst.old dst.new due
        result.0 result.1 result.2 }
    ensures restored { IsTrue RESTORES → due ≡ 0 → result.2 ≡ 0 }
{
    if RESTORES {
        return convert_joined_run(block, src, dst, due, most);
    }
    convert_run::<_, _, false>(block, src, dst, due, most)
}
