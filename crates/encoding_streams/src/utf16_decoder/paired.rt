//! How many code units precede the first that is unpaired, by vectors. Each unit is judged by itself and the one before
//! it, which is loaded separately. They are read where they are, and nothing after the sixteen with the unpaired one is
//! tested for pairs.

ghost use Rattle.std.specs.Prelude.{◌≡◌, false, ◌+◌, ◌<◌, ◌≤◌, length, take, drop, slice_index, IsTrue};
ghost use Rattle.encoding_definitions.specs.Surrogates.{IsValidUtf16};
ghost use Rattle.encoding_definitions.specs.Utf16.{AreCodeUnits};
ghost use Rattle.encoding_kernels.specs.Neighbors.{PairUp, HaveNoSurrogate, pair_fault};
ghost use Rattle.encoding_kernels.specs.Scans.{Marks};

use encoding_kernels::scalar::{is_high_surrogate, is_low_surrogate};
use encoding_kernels::simd::width::{FOUR, STRIDE, UNIT_BLOCK};
use encoding_kernels::utf16::source::CodeUnits;
use std::simd::prelude::*;

/// How many strides are tested for pairs at once after a block with a surrogate, since surrogates cluster.
const PAIRED_STRIDES: usize = 32;

/// Returns the mask of those of the sixteen code units from index `at` on that are a high surrogate without a low one
/// after it, or the reverse.
#[inline(always)]
fn faults<S: CodeUnits>(src: S, at: usize) -> u64
    requires within { (at + 17 ≤ length (S.units src)) × (at + 17 ≤ usize.MAX) }
    ensures { Marks (λ k. pair_fault (slice_index (S.units src) (k + 1))
        (slice_index (S.units src) k) ≡ false) at 16 result }
{
    let next = src.sixteen(at + 1) & u16x16::splat(0xFC00);
    let units = src.sixteen(at) & u16x16::splat(0xFC00);
    let low = next.simd_eq(u16x16::splat(0xDC00));
    let high = units.simd_eq(u16x16::splat(0xD800));
    (low ^ high).to_bitmask()
}

/// Returns whether each of the 64 code units from index `at` on is a low surrogate if and only if it follows a high
/// one, by one test.
#[inline(always)]
fn are_paired<S: CodeUnits>(src: S, at: usize) -> bool
    requires within { (0 < at) × (at + 64 ≤ length (S.units src)) × (at + 64 ≤ usize.MAX) }
    requires code_units { AreCodeUnits (S.units src) }
    ensures { IsTrue result → PairUp (S.units src) at (at + 64) }
{
    let none = faults(src, at - 1)
        | faults(src, at + STRIDE - 1)
        | faults(src, at + 2 * STRIDE - 1)
        | faults(src, at + 3 * STRIDE - 1);
    none == 0
}

/// Returns how many of the sixteen code units from index `at` on precede the first that is a low surrogate without
/// following a high one, or follows a high one without being a low one.
#[inline(always)]
fn paired_run<S: CodeUnits>(src: S, at: usize) -> usize
    requires within { (0 < at) × (at + 16 ≤ length (S.units src)) × (at + 16 ≤ usize.MAX) }
    requires code_units { AreCodeUnits (S.units src) }
    ensures within { result ≤ 16 }
    ensures paired { PairUp (S.units src) at (at + result) }
{
    let failing = faults(src, at - 1);
    if failing == 0 {
        return STRIDE;
    }
    failing.trailing_zeros() as usize
}

/// Returns whether none of the 64 code units from index `at` on is a surrogate, by one test.
#[inline(always)]
fn has_no_surrogate<S: CodeUnits>(src: S, at: usize) -> bool
    requires within { (at + 64 ≤ length (S.units src)) × (at + 64 ≤ usize.MAX) }
    requires code_units { AreCodeUnits (S.units src) }
    ensures { IsTrue result → HaveNoSurrogate (take 64 (drop at (S.units src))) }
{
    let least = u16x16::splat(0xD800);
    let first = src.sixteen(at) - least;
    let second = src.sixteen(at + STRIDE) - least;
    let third = src.sixteen(at + 2 * STRIDE) - least;
    let fourth = src.sixteen(at + 3 * STRIDE) - least;
    let lowest = first.simd_min(second).simd_min(third.simd_min(fourth));
    !lowest.simd_lt(u16x16::splat(0x800)).any()
}

/// Skips blocks without a surrogate, given that the code units before index `at` are paired. Returns the index that it
/// reaches.
#[inline(always)]
fn skip_blocks<S: CodeUnits>(src: S, at: usize) -> usize
    requires within { (0 < at) × (at ≤ length (S.units src)) }
    requires paired { PairUp (S.units src) 0 at }
    ensures within { (at ≤ result) × (result ≤ length (S.units src)) }
    ensures paired { PairUp (S.units src) 0 result }
{
    let count = src.count();
    let mut end = at;
    while count - end >= UNIT_BLOCK
        && !is_high_surrogate(src.unit_at(end - 1))
        && has_no_surrogate(src, end)
    {
        end += UNIT_BLOCK;
    }
    end
}

/// Returns what `paired_prefix` does, by single code units.
#[inline(always)]
fn paired_prefix_of_few<S: CodeUnits>(src: S) -> usize
    ensures within { result ≤ length (S.units src) }
    ensures paired { PairUp (S.units src) 0 result }
{
    let count = src.count();
    let mut at = 0;
    let mut follows_high = false;
    while at < count {
        let unit = src.unit_at(at);
        if is_low_surrogate(unit) != follows_high {
            return at;
        }
        follows_high = is_high_surrogate(unit);
        at += 1;
    }
    at
}

/// Returns how many code units precede the first that is a low surrogate without following a high one, or follows a
/// high one without being a low one.
#[inline(always)]
fn paired_prefix<S: CodeUnits>(src: S) -> usize
    ensures within { result ≤ length (S.units src) }
    ensures paired { PairUp (S.units src) 0 result }
    ensures code_units { AreCodeUnits (S.units src) }
{
    let count = src.count();
    if count <= STRIDE {
        return paired_prefix_of_few(src);
    }
    if is_low_surrogate(src.unit_at(0)) {
        return 0;
    }
    let mut at = 1;
    // most damage is found by the first stride
    let mut strides = 1;
    while count - at >= STRIDE {
        if strides == 0 {
            at = skip_blocks(src, at);
            strides = PAIRED_STRIDES;
        } else if strides > FOUR && count - at >= UNIT_BLOCK && are_paired(src, at) {
            at += UNIT_BLOCK;
            strides -= FOUR;
        } else {
            let run = paired_run(src, at);
            if run < STRIDE {
                return at + run;
            }
            at += STRIDE;
            strides -= 1;
        }
    }
    // these may overlap the ones before
    let last = count - STRIDE;
    last + paired_run(src, last)
}

/// Returns the length of a prefix without an unpaired surrogate: up to the first one, or to a pair that the end cuts.
#[inline(never)]
pub(super) fn valid_prefix<S: CodeUnits>(src: S) -> usize
    ensures within { result ≤ length (S.units src) }
    ensures valid { IsValidUtf16 (take result (S.units src)) }
{
    let paired = paired_prefix(src);
    if paired > 0 && is_high_surrogate(src.unit_at(paired - 1)) {
        return paired - 1;
    }
    paired
}
