//! Code units that no block takes: those at the end of a text or before a surrogate, and single characters. Nothing
//! after the bytes that are written changes.

ghost use Rattle.std.specs.Prelude.{◌≡◌, ◌+◌, ◌<◌, ◌≤◌, ℕ, length, take, drop, slice_index, IfSome, IfNone};
ghost use Rattle.encoding_definitions.specs.Prefixes.{WritesPrefix};
ghost use Rattle.encoding_definitions.specs.Utf16.{AreCodeUnits, IsUtf8OfPrefix};
ghost use Rattle.encoding_kernels.specs.Utf8Output.{ConvertsPrefix, IsCharacterAt, WritesBmp};
ghost use Rattle.encoding_definitions.specs.FirstScalar.{IsFirstScalar};

use super::mixed::{SPILL, non_surrogate_prefix, store_mixed, with_zeros, write_mixed};
use crate::scalar::{
    REPLACEMENT_CHARACTER, is_high_surrogate, is_low_surrogate, is_surrogate, pair_scalar,
    utf16_length, write_scalar,
};
use crate::simd::copy::copy_prefix;
use crate::simd::width::STRIDE;
use crate::utf16::source::CodeUnits;
use std::simd::prelude::*;

/// The number of bytes that sixteen code units may change, with those that are written back.
const ROOM: usize = 64;

/// Returns `None` if an unpaired surrogate is at `at`. A high surrogate at the end is unpaired.
#[inline(always)]
pub(super) fn character_at<S: CodeUnits>(src: S, at: usize) -> Option<u32>
    requires { at < length (S.units src) }
    ensures character { IfSome result (λ scalar. IsCharacterAt (S.units src) at scalar) }
    ensures none { IfNone result ((scalar : ℕ) → IsCharacterAt (S.units src) at scalar → ⊥) }
    ensures code_unit { slice_index (S.units src) at < 0x10000 }
{
    let unit = src.unit_at(at);
    if !is_surrogate(unit) {
        return Some(u32::from(unit));
    }
    if is_high_surrogate(unit) && src.count() - at > 1 {
        let next = src.unit_at(at + 1);
        if is_low_surrogate(next) {
            return Some(pair_scalar(unit, next));
        }
    }
    None
}

#[tactic(auto, using(crate::proofs::ScalarsLemmas::character_first, crate::proofs::ScalarsLemmas::unpaired_first))]
#[inline(always)]
pub fn scalar_at<S: CodeUnits>(src: S, at: usize) -> u32
    requires { at < length (S.units src) }
    ensures { IsFirstScalar (drop at (S.units src)) result }
{
    match character_at(src, at) {
        Some(scalar) => scalar,
        None => REPLACEMENT_CHARACTER,
    }
}

/// Near the end of `dst` the units are converted apart from it, so that nothing else is stored there.
#[tactic(auto, using(crate::proofs::Utf16ToUtf8Lemmas::writes_none))]
#[inline(always)]
pub(super) fn convert_first_sixteen<S: CodeUnits>(src: S, dst: &mut [u8]) -> (usize, usize)
    ensures written { WritesBmp (S.units src) dst.old dst.new result.0 result.1 }
    ensures length_bound { result.0 ≤ result.1 }
    ensures code_units { AreCodeUnits (S.units src) }
{
    let units = src.first_sixteen();
    let first = non_surrogate_prefix(units).min(src.count());
    let lanes = with_zeros(units, first);
    if dst.len() >= ROOM {
        return (first, write_mixed(lanes, STRIDE - first, dst));
    }
    let mut bytes = [0; 64];
    let stored = store_mixed(lanes, &mut bytes, 0);
    let written = stored - (STRIDE - first);
    if written > dst.len() {
        return (0, 0);
    }
    copy_prefix(&bytes[..written], dst);
    (first, written)
}

/// Those of the first sixteen code units that precede a surrogate, or the first character.
#[inline(always)]
fn convert_some<S: CodeUnits>(src: S, dst: &mut [u8]) -> (usize, usize)
    requires { (0 < length (S.units src)) × (4 ≤ length dst.old) }
    ensures prefix { IsUtf8OfPrefix (S.units src) result.0 (take result.1 dst.new) }
    ensures unchanged_after { WritesPrefix dst.old dst.new result.1 (take result.1 dst.new) }
    ensures within { result.0 ≤ length (S.units src) }
    ensures progress { (0 < result.0) × (result.0 ≤ result.1) }
{
    let (first, written) = convert_first_sixteen(src, dst);
    if first > 0 {
        return (first, written);
    }
    let scalar = scalar_at(src, 0);
    (utf16_length(scalar), write_scalar(scalar, dst))
}

/// At least sixteen bytes: they overwrite the spill of a block.
pub(super) fn convert_spilled<S: CodeUnits>(src: S, dst: &mut [u8]) -> (usize, usize)
    requires lengths { (16 ≤ length (S.units src)) × (48 ≤ length dst.old) }
    requires code_units { AreCodeUnits (S.units src) }
    ensures converted { ConvertsPrefix (S.units src) dst.old dst.new result.0 result.1 }
    ensures length_bound { 16 ≤ result.1 }
{
    let mut read = 0;
    let mut written = 0;
    while written < SPILL {
        let (units, bytes) = convert_some(src.skip(read), &mut dst[written..]);
        read += units;
        written += bytes;
    }
    (read, written)
}
