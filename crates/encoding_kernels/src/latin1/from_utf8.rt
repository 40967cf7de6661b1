//! Latin1 of sixteen and of 32 bytes of UTF-8: the kept bytes of pairs are looked up by a mask, as in the other
//! direction.

ghost use Rattle.std.specs.Prelude.{◌≡◌, ℕ, ◌+◌, ◌*◌, ◌<◌, ◌≤◌, ◌⊎◌, ◌∷◌, ◌++◌};
ghost use Rattle.std.specs.Prelude.{length, take, drop, replicate, slice_index};
ghost use Rattle.std.specs.Simd.Lanes.{mask_l};
ghost use Rattle.encoding_kernels.specs.KeptBytes.{EndsPair, all_latin1_ended, both_end};

use crate::simd::compress::keep_pairs;
use crate::simd::copy::copy_prefix;
use crate::simd::width::{HALF_STRIDE, STRIDE};
use crate::utf8::validate::{lanes_before, with_zeros};
use std::simd::prelude::*;

/// If a pair of bytes ends one byte of Latin1, the second is arbitrary.
#[inline(always)]
fn ended_pairs(before: u8x16, block: u8x16) -> u8x16
    ensures lane_count { length result ≡ 16 }
    ensures pairs { (p : ℕ) → ((k : ℕ) → k < 16 → slice_index before k ≡ slice_index (p ∷ block) k)
        → (k : ℕ) → k < 8 → EndsPair (slice_index (p ∷ block) (2 * k)) (slice_index block (2 * k))
        (slice_index block (2 * k + 1)) (slice_index result (2 * k))
        (slice_index result (2 * k + 1)) }
{
    let low = (before << u8x16::splat(6)) + (block & u8x16::splat(0x3F));
    let ends = block.simd_ge(u8x16::splat(0x80)).select(low, block);
    let words = u16x8::from_le_bytes(ends);
    let firsts = u16x8::from_le_bytes(block) & u16x8::splat(0xFF);
    let begins = firsts.simd_ge(u16x8::splat(0xC0));
    begins.select(words >> u16x8::splat(8), words).to_le_bytes()
}

/// The mask of the pairs that each end a byte of Latin1.
#[tactic(auto, using(crate::proofs::Latin1FromUtf8Lemmas::mask_ends, crate::proofs::Latin1FromUtf8Lemmas::mask_small))]
#[inline(always)]
fn mask_of_ends(block: u8x16) -> usize
    ensures upper_bound { result < 256 }
    ensures mask { result ≡ mask_l (both_end block) }
{
    let words = u16x8::from_le_bytes(block);
    let first = (words & u16x8::splat(0xFF)).simd_lt(u16x8::splat(0xC0));
    (first & words.simd_lt(u16x8::splat(0xC000))).to_bitmask() as usize
}

#[inline(always)]
fn ended_latin1(before: u8x16, block: u8x16) -> (u8x16, usize)
    requires { (k : ℕ) → (slice_index block k < 0xC0) ⊎ (slice_index block (k + 1) < 0xC0) }
    ensures lane_count { length result.0 ≡ 16 }
    ensures out_length { (8 ≤ result.1) × (result.1 ≤ 16) }
    ensures latin1_ended { (p : ℕ)
        → ((k : ℕ) → k < 16 → slice_index before k ≡ slice_index (p ∷ block) k)
        → take result.1 result.0 ≡ all_latin1_ended p block }
{
    keep_pairs(ended_pairs(before, block), mask_of_ends(block))
}

/// The Latin1 bytes at the start of the vector, and their number.
#[inline(always)]
pub fn latin1_of_after(before: u8x16, block: u8x16) -> (u8x16, usize)
    requires { (k : ℕ) → (slice_index block k < 0xC0) ⊎ (slice_index block (k + 1) < 0xC0) }
    ensures lane_count { length result.0 ≡ 16 }
    ensures out_length { result.1 ≤ 16 }
    ensures latin1_ended { (p : ℕ)
        → ((k : ℕ) → k < 16 → slice_index before k ≡ slice_index (p ∷ block) k)
        → take result.1 result.0 ≡ all_latin1_ended p block }
{
    ended_latin1(before, block)
}

/// What follows is loaded before the stores and stored after them. A load that overlaps the store before it
/// would wait until that is in the cache.
#[inline(always)]
pub fn write_latin1_of_two(src: &[u8], from: usize, dst: &mut [u8], at: usize) -> usize
    requires within { from + 32 ≤ length src.now }
    requires dst_length { at + 48 ≤ length dst.old }
    requires apart { (k : ℕ) → (slice_index src.now (from + k) < 0xC0)
        ⊎ (slice_index src.now (from + k + 1) < 0xC0) }
    ensures length_bound { result ≤ 32 }
    ensures out_length { result ≡ length (all_latin1_ended 0 (take 32 (drop from src.now))) }
    ensures written { dst.new ≡ take at dst.old ++ (all_latin1_ended 0 (take 32 (drop from src.now))
        ++ drop (at + result) dst.old) }
{
    let block = u8x16::from_slice(&src[from..]);
    let (first, count) = ended_latin1(lanes_before(block).2, block);
    let before = u8x16::from_slice(&src[from + STRIDE - 1..]);
    let (second, more) = ended_latin1(before, u8x16::from_slice(&src[from + STRIDE..]));
    let end = at + (count + more);
    let following = u8x16::from_slice(&dst[end..]);
    first.copy_to_slice(&mut dst[at..]);
    second.copy_to_slice(&mut dst[at + count..]);
    following.copy_to_slice(&mut dst[end..]);
    count + more
}

#[inline(always)]
pub fn latin1_of(block: u8x16) -> (u8x16, usize)
    requires { (k : ℕ) → (slice_index block k < 0xC0) ⊎ (slice_index block (k + 1) < 0xC0) }
    ensures lane_count { length result.0 ≡ 16 }
    ensures out_length { result.1 ≤ 16 }
    ensures latin1_ended { take result.1 result.0 ≡ all_latin1_ended 0 block }
{
    latin1_of_after(lanes_before(block).2, block)
}

#[inline(always)]
pub fn latin1_length_of_first(block: u8x16, count: usize) -> usize
    requires { count ≤ 16 }
    ensures { (p : ℕ) → result ≡ length (all_latin1_ended p (take count block)) }
{
    let leads = block.simd_ge(u8x16::splat(0xC0)).to_bitmask() as usize & ((1 << count) - 1);
    count - leads.count_ones() as usize
}

/// Fewer than eight are copied into an array, since they fill no vector.
#[inline(always)]
pub fn few_with_zeros(src: &[u8]) -> u8x16
    requires { length src.now ≤ 16 }
    ensures { result ≡ src.now ++ drop (length src.now) (replicate 16 0) }
{
    if src.len() >= HALF_STRIDE {
        return with_zeros(src);
    }
    let mut bytes = [0; STRIDE];
    copy_prefix(src, &mut bytes);
    u8x16::from_slice(&bytes)
}
