//! Validates UTF-8 by blocks of 64 bytes, and 8 to 64 bytes by one vector or two that may overlap. Look-ups find the
//! bytes that may not follow those before them. The previous bytes are loaded separately, so that a block carries no
//! state. ASCII before the blocks, and long runs of it between them, are the caller's.

ghost use Rattle.std.specs.Prelude.{◌≡◌, ℕ, ◌+◌, ◌-◌, ◌*◌, ◌<◌, ◌≤◌, ◌∷◌, ◌++◌};
ghost use Rattle.std.specs.Prelude.{length, take, drop, replicate, slice_index};
ghost use Rattle.encoding_kernels.specs.Scans.{BelowUpTo, HasLanes};
ghost use Rattle.encoding_kernels.specs.Following.{IsValidAt, ValidUpTo};
ghost use Rattle.std.specs.Str.{IsUtf8};

use crate::simd::scan::{AllPass, BytesBelow, skip, zeros};
use crate::simd::width::{
    ASCII_END, BLOCK, FOUR_BLOCKS, HALF_BLOCK, LANE_INDICES, STRIDE, TWO_BLOCKS,
};
use crate::tuning::MOST_SKIPPED;
use crate::utf8::lookups::{BYTE_1_HIGH, BYTE_1_LOW, BYTE_2_HIGH};
use std::simd::prelude::*;

/// The two halves may overlap.
#[inline(always)]
pub(crate) fn first_and_last_eight(src: &[u8]) -> u8x16
    requires { (8 ≤ length src.now) × (length src.now ≤ 16) }
    ensures { result ≡ take 8 src.now ++ drop (length src.now - 8) src.now }
{
    u8x8::from_slice(src).shuffle(
        u8x8::from_slice(&src[src.len() - 8..]),
        [0, 1, 2, 3, 4, 5, 6, 7, 8, 9, 10, 11, 12, 13, 14, 15],
    )
}

/// Uses only loads, since a load of what two stores wrote would stall on store forwarding.
#[inline(always)]
pub(crate) fn with_zeros(src: &[u8]) -> u8x16
    requires { (8 ≤ length src.now) × (length src.now ≤ 16) }
    ensures { result ≡ src.now ++ drop (length src.now) (replicate 16 0) }
{
    let lanes = u8x16::from_array(LANE_INDICES);
    let count = u8x16::splat(src.len() as u8);
    let both = first_and_last_eight(src);
    let following = (lanes + (u8x16::splat(16) - count)) & u8x16::splat(15);
    let places = lanes.simd_lt(u8x16::splat(8)).select(lanes, following);
    let bytes = both.swizzle_dyn(places);
    lanes.simd_lt(count).select(bytes, u8x16::splat(0))
}

/// The bytes three, two and one lanes before each, and zeros before the first.
#[inline(always)]
pub(crate) fn lanes_before(block: u8x16) -> (u8x16, u8x16, u8x16)
    ensures three { HasLanes 16 result.0 (λ k. slice_index (0 ∷ 0 ∷ 0 ∷ block) k) }
    ensures two { HasLanes 16 result.1 (λ k. slice_index (0 ∷ 0 ∷ block) k) }
    ensures one { HasLanes 16 result.2 (λ k. slice_index (0 ∷ block) k) }
{
    let zero = u8x16::splat(0);
    (
        zero.shuffle(
            block,
            [
                13, 14, 15, 16, 17, 18, 19, 20, 21, 22, 23, 24, 25, 26, 27, 28,
            ],
        ),
        zero.shuffle(
            block,
            [
                14, 15, 16, 17, 18, 19, 20, 21, 22, 23, 24, 25, 26, 27, 28, 29,
            ],
        ),
        zero.shuffle(
            block,
            [
                15, 16, 17, 18, 19, 20, 21, 22, 23, 24, 25, 26, 27, 28, 29, 30,
            ],
        ),
    )
}

/// The bytes three, two and one before each of the sixteen. If BEFORE is 0, zeros precede the text.
#[inline(always)]
pub(crate) fn bytes_before<const BEFORE: usize>(src: &[u8], at: usize) -> (u8x16, u8x16, u8x16)
    requires { (BEFORE ≤ at) × (BEFORE < 3 → at ≡ 0) × (at + 16 ≤ length src.now) }
    ensures three { HasLanes 16 result.0 (λ k. slice_index (0 ∷ 0 ∷ 0 ∷ src.now) (at + k)) }
    ensures two { HasLanes 16 result.1 (λ k. slice_index (0 ∷ 0 ∷ src.now) (at + k)) }
    ensures one { HasLanes 16 result.2 (λ k. slice_index (0 ∷ src.now) (at + k)) }
{
    if BEFORE < 3 {
        return lanes_before(u8x16::from_slice(src));
    }
    let three = u8x16::from_slice(&src[at - 3..]);
    let two = u8x16::from_slice(&src[at - 2..]);
    let one = u8x16::from_slice(&src[at - 1..]);
    (three, two, one)
}

/// The bytes three, two and one before each of the 32. If BEFORE is 0, zeros precede the text.
#[inline(always)]
fn bytes_before_32<const BEFORE: usize>(src: &[u8], at: usize) -> (u8x32, u8x32, u8x32)
    requires { (BEFORE ≤ at) × (BEFORE < 3 → at ≡ 0) × (at + 32 ≤ length src.now) }
    ensures three { HasLanes 32 result.0 (λ k. slice_index (0 ∷ 0 ∷ 0 ∷ src.now) (at + k)) }
    ensures two { HasLanes 32 result.1 (λ k. slice_index (0 ∷ 0 ∷ src.now) (at + k)) }
    ensures one { HasLanes 32 result.2 (λ k. slice_index (0 ∷ src.now) (at + k)) }
{
    if BEFORE < 3 {
        let (zero, block) = (u8x32::splat(0), u8x32::from_slice(src));
        let three = zero.shuffle(
            block,
            [
                29, 30, 31, 32, 33, 34, 35, 36, 37, 38, 39, 40, 41, 42, 43, 44, 45, 46, 47, 48, 49,
                50, 51, 52, 53, 54, 55, 56, 57, 58, 59, 60,
            ],
        );
        let two = zero.shuffle(
            block,
            [
                30, 31, 32, 33, 34, 35, 36, 37, 38, 39, 40, 41, 42, 43, 44, 45, 46, 47, 48, 49, 50,
                51, 52, 53, 54, 55, 56, 57, 58, 59, 60, 61,
            ],
        );
        let one = zero.shuffle(
            block,
            [
                31, 32, 33, 34, 35, 36, 37, 38, 39, 40, 41, 42, 43, 44, 45, 46, 47, 48, 49, 50, 51,
                52, 53, 54, 55, 56, 57, 58, 59, 60, 61, 62,
            ],
        );
        return (three, two, one);
    }
    let three = u8x32::from_slice(&src[at - 3..]);
    let two = u8x32::from_slice(&src[at - 2..]);
    let one = u8x32::from_slice(&src[at - 1..]);
    (three, two, one)
}

/// A lane is zero if its byte may follow the three before it.
#[inline(always)]
fn faults<const BEFORE: usize>(src: &[u8], at: usize) -> u8x16
    requires { (BEFORE ≤ at) × (BEFORE < 3 → at ≡ 0) × (at + 16 ≤ length src.now) }
    ensures length { length result ≡ 16 }
    ensures lanes { (i : ℕ) → i < 16 → slice_index result i ≡ 0 → IsValidAt src.now (at + i) }
{
    let (fourth, third, second) = bytes_before::<BEFORE>(src, at);
    let block = u8x16::from_slice(&src[at..]);
    let four = u8x16::splat(4);
    let pairs = u8x16::from_slice(&BYTE_1_HIGH).swizzle_dyn(second >> four)
        & u8x16::from_slice(&BYTE_1_LOW).swizzle_dyn(second & u8x16::splat(15))
        & u8x16::from_slice(&BYTE_2_HIGH).swizzle_dyn(block >> four);
    let goes_on = third.saturating_sub(u8x16::splat(0x60))
        | fourth.saturating_sub(u8x16::splat(0x70));
    (goes_on & u8x16::splat(0x80)) ^ pairs
}

/// A lane is zero if its byte may follow the three before it.
#[inline(always)]
fn faults_32<const BEFORE: usize>(src: &[u8], at: usize) -> u8x32
    requires { (BEFORE ≤ at) × (BEFORE < 3 → at ≡ 0) × (at + 32 ≤ length src.now) }
    ensures length { length result ≡ 32 }
    ensures lanes { (i : ℕ) → i < 32 → slice_index result i ≡ 0 → IsValidAt src.now (at + i) }
{
    let (fourth, third, second) = bytes_before_32::<BEFORE>(src, at);
    let block = u8x32::from_slice(&src[at..]);
    let four = u8x32::splat(4);
    let pairs = u8x32::from_slice(&BYTE_1_HIGH).swizzle_dyn_within::<16>(second >> four)
        & u8x32::from_slice(&BYTE_1_LOW).swizzle_dyn_within::<16>(second & u8x32::splat(15))
        & u8x32::from_slice(&BYTE_2_HIGH).swizzle_dyn_within::<16>(block >> four);
    let goes_on = third.saturating_sub(u8x32::splat(0x60))
        | fourth.saturating_sub(u8x32::splat(0x70));
    (goes_on & u8x32::splat(0x80)) ^ pairs
}

/// If BEFORE is 0, the bytes are the first of the text, and zeros precede it.
#[tactic(auto, using(crate::proofs::Utf8ValidationLemmas::ValidUpTo_over))]
#[inline(always)]
fn clean_of_64<const BEFORE: usize>(src: &[u8], at: usize) -> usize
    requires before { (BEFORE ≤ at) × (BEFORE < 3 → at ≡ 0) }
    requires within { (at + 35 ≤ length src.now) × (3 ≤ BEFORE → at + 64 ≤ length src.now) }
    ensures within { (at + result ≤ length src.now) × (result ≤ 64) }
    ensures follow { ValidUpTo src.now at → ValidUpTo src.now (at + result) }
{
    let last = if BEFORE < 3 {
        (src.len() - 32).min(32)
    } else {
        at + 32
    };
    let first = faults_32::<BEFORE>(src, at);
    let second = faults_32::<3>(src, last);
    // a mask and not `is_zero`: without AVX2, comparisons then take the place of the exclusive ors in both
    if (first | second).simd_ne(u8x32::splat(0)).to_bitmask() == 0 {
        return last + 32 - at;
    }
    let clean = zeros(first);
    if clean < 32 {
        return clean;
    }
    last - at + zeros(second)
}

#[inline(always)]
fn clean_of_128(src: &[u8], at: usize) -> usize
    requires { (3 ≤ at) × (at + 128 ≤ length src.now) }
    ensures within { result ≤ 128 }
    ensures follow { ValidUpTo src.now at → ValidUpTo src.now (at + result) }
{
    let clean = clean_of_64::<3>(src, at);
    if clean < BLOCK {
        return clean;
    }
    BLOCK + clean_of_64::<3>(src, at + BLOCK)
}

/// The tables are loaded once for all four blocks.
#[inline(always)]
fn clean_of_256(src: &[u8], at: usize) -> usize
    requires { (3 ≤ at) × (at + 256 ≤ length src.now) }
    ensures within { result ≤ 256 }
    ensures follow { ValidUpTo src.now at → ValidUpTo src.now (at + result) }
{
    let clean = clean_of_128(src, at);
    if clean < TWO_BLOCKS {
        return clean;
    }
    TWO_BLOCKS + clean_of_128(src, at + TWO_BLOCKS)
}

#[tactic(auto, using(crate::proofs::Utf8ValidationLemmas::boundaries))]
fn to_boundary(src: &[u8], at: usize) -> usize
    requires { (at ≤ length src.now) × ValidUpTo src.now at }
    ensures { (result ≤ at) × IsUtf8 (take result src.now) }
{
    if at < 3 {
        return 0;
    }
    if src[at - 1] >= 0xC0 {
        return at - 1;
    }
    if src[at - 2] >= 0xE0 {
        return at - 2;
    }
    if src[at - 3] >= 0xF0 {
        return at - 3;
    }
    at
}

/// The ASCII has to begin three bytes before `from`: then no character is cut there. A vector has no more
/// lanes than those of the look-ups. The loads of these begin up to three bytes apart from it, and the
/// compiler would take them out of a longer vector byte by byte.
#[inline(always)]
fn skip_ascii(src: &[u8], from: usize) -> usize
    requires within { (64 ≤ from) × (from + 256 ≤ length src.now) }
    requires prefix { ValidUpTo src.now from }
    ensures { (from ≤ result) × (result ≤ length src.now) × ValidUpTo src.now result }
{
    // The first half of each of the next four blocks: most other text shows there. Text from beyond the nearest
    // caches is validated faster by that than by a test of adjacent bytes alone.
    let next = from + TWO_BLOCKS;
    let first = u8x32::from_slice(&src[from..]) | u8x32::from_slice(&src[from + BLOCK..]);
    let second = u8x32::from_slice(&src[next..]) | u8x32::from_slice(&src[next + BLOCK..]);
    if !(first | second).simd_lt(u8x32::splat(ASCII_END)).all() {
        return from;
    }
    let ascii = BytesBelow {
        bytes: src,
        bound: ASCII_END,
    };
    if !AllPass::<HALF_BLOCK, TWO_BLOCKS>::pass(&ascii, from - 3) {
        return from;
    }
    let at = from - 3 + TWO_BLOCKS;
    let most = (src.len() - at).min(MOST_SKIPPED);
    skip::<HALF_BLOCK, TWO_BLOCKS, _>(&ascii, at, at + most)
}

/// The last 64 bytes may begin before `from`.
#[tactic(auto, using(crate::proofs::Utf8ValidationLemmas::ValidUpTo_less))]
#[inline(always)]
fn validate_rest(src: &[u8], from: usize) -> usize
    requires { (64 ≤ from) × (from ≤ length src.now) × ValidUpTo src.now from }
    ensures { (result ≤ length src.now) × ValidUpTo src.now result }
{
    let mut at = from;
    while src.len() - at >= BLOCK {
        let clean = clean_of_64::<3>(src, at);
        if clean < BLOCK {
            return at + clean;
        }
        at += BLOCK;
    }
    if at == src.len() || src.len() < BLOCK + 3 {
        return at;
    }
    let last = src.len() - BLOCK;
    last + clean_of_64::<3>(src, last)
}

/// Stops in a long run of ASCII. Out of line, so that the address of the loop, and so its speed, doesn't
/// depend on the caller.
///
/// ASCII that begins three bytes before `at` needs no look-ups, since no character is cut there. It is tested
/// for before each four blocks. After ASCII two blocks follow without a test, since the next byte that isn't
/// ASCII is in them. With fewer than 256 bytes left it isn't tested for: a test that fails would cost more
/// than it saves there.
#[inline(never)]
fn validate_blocks(src: &[u8], from: usize) -> usize
    requires src_length { 64 ≤ length src.now }
    requires prefix { (from ≤ length src.now) × ValidUpTo src.now from }
    ensures { (result ≤ length src.now) × ValidUpTo src.now result }
{
    // from a multiple of 64 on: until ASCII is skipped, only the length decides how often the loops iterate
    let mut at = from / BLOCK * BLOCK;
    if at < BLOCK {
        at = clean_of_64::<0>(src, 0);
        if at < BLOCK {
            return at;
        }
    } else if src.len() - at >= BLOCK {
        let clean = clean_of_64::<3>(src, at);
        at += clean;
        if clean < BLOCK {
            return at;
        }
    }
    while src.len() - at >= FOUR_BLOCKS {
        let run = skip_ascii(src, at);
        if run == at {
            let clean = clean_of_256(src, at);
            at += clean;
            if clean < FOUR_BLOCKS {
                return at;
            }
            continue;
        }
        if run - at >= MOST_SKIPPED {
            return run;
        }
        at = run;
        if src.len() - at < TWO_BLOCKS {
            break;
        }
        let clean = clean_of_128(src, at);
        at += clean;
        if clean < TWO_BLOCKS {
            return at;
        }
    }
    validate_rest(src, at)
}

/// By one vector, or two that may overlap.
#[inline(always)]
pub fn well_formed_short(src: &[u8]) -> usize
    requires { (8 ≤ length src.now) × (length src.now ≤ 64) }
    ensures { (result ≤ length src.now) × IsUtf8 (take result src.now) }
{
    let clean = if src.len() >= 35 {
        clean_of_64::<0>(src, 0)
    } else if src.len() >= STRIDE {
        let first = zeros(faults::<0>(src, 0));
        if first < STRIDE || src.len() < STRIDE + 3 {
            first
        } else {
            // the second vector needs three bytes before it
            let last = (src.len() - STRIDE).min(STRIDE);
            last + zeros(faults::<3>(src, last))
        }
    } else {
        // one vector, which zeros fill
        let block = with_zeros(src).to_array();
        zeros(faults::<0>(&block, 0)).min(src.len())
    };
    to_boundary(src, clean)
}

/// Ends in the first long run of ASCII after a block, though a longer prefix may be well-formed.
#[tactic(auto, using(crate::proofs::Utf8ValidationLemmas::ascii_prefixes))]
#[inline(always)]
pub fn well_formed_blocks(src: &[u8], ascii: usize) -> usize
    requires src_length { 64 ≤ length src.now }
    requires ascii { (ascii ≤ length src.now) × BelowUpTo ASCII_END src.now ascii }
    ensures { (result ≤ length src.now) × IsUtf8 (take result src.now) }
{
    to_boundary(src, validate_blocks(src, ascii))
}
