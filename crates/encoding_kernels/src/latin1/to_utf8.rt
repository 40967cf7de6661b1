//! The UTF-8 of Latin1 by strides of sixteen bytes: both bytes of each are computed, and the kept ones are looked up
//! by a mask.

ghost use Rattle.std.specs.Prelude.{◌≡◌, ℕ, ◌+◌, ◌*◌, ◌<◌, ◌≤◌, ◌++◌, nat_le, length};
ghost use Rattle.std.specs.Prelude.{map, take, drop, slice_index, encode_utf8_all};
ghost use Rattle.std.specs.Simd.Lanes.{mask_l};
ghost use Rattle.encoding_definitions.specs.Prefixes.{WritesPrefix};
ghost use Rattle.encoding_kernels.specs.KeptBytes.{EncodesTo};
ghost use Rattle.encoding_kernels.specs.Utf8Output.{Spills};

use crate::simd::compress::{keep_pairs, store_two, write_both};
use crate::simd::copy::join_bytes;
use crate::simd::width::{HALF_STRIDE, STRIDE};
use crate::utf8::validate::first_and_last_eight;
use std::simd::prelude::*;

/// The UTF-8 of each byte. A byte that is ASCII has an arbitrary second one.
#[inline(always)]
fn both_bytes(block: u8x16) -> (u8x16, u8x16)
    ensures lane_count { (length result.0 ≡ 16) × (length result.1 ≡ 16) }
    ensures first_half { (k : ℕ) → k < 8
        → EncodesTo (slice_index block k) (slice_index result.0 (2 * k))
        (slice_index result.0 (2 * k + 1)) }
    ensures last { (k : ℕ) → k < 8
        → EncodesTo (slice_index block (8 + k)) (slice_index result.1 (2 * k))
        (slice_index result.1 (2 * k + 1)) }
{
    let lead = (block >> u8x16::splat(6)) + u8x16::splat(0xC0);
    let first = block.simd_ge(u8x16::splat(0x80)).select(lead, block);
    let second = (block & u8x16::splat(0x3F)) + u8x16::splat(0x80);
    let (low, high) = join_bytes(first, second);
    (low.to_le_bytes(), high.to_le_bytes())
}

#[inline(always)]
fn mask_of_others(block: u8x16) -> usize
    ensures { result ≡ mask_l (map (nat_le 0x80) block) }
{
    block.simd_ge(u8x16::splat(0x80)).to_bitmask() as usize
}

/// The first eight are encoded at the start of one vector, and the others at the start of another.
#[inline(always)]
fn encode_latin1(block: u8x16) -> (u8x16, usize, u8x16, usize)
    ensures lane_count { (length result.0 ≡ 16) × (length result.2 ≡ 16) }
    ensures first_length { (8 ≤ result.1) × (result.1 ≤ 16) }
    ensures second_length { (8 ≤ result.3) × (result.3 ≤ 16) }
    ensures first_half { take result.1 result.0 ≡ encode_utf8_all (take 8 block) }
    ensures second_half { take result.3 result.2 ≡ encode_utf8_all (drop 8 block) }
{
    let others = mask_of_others(block);
    let (low, high) = both_bytes(block);
    let (first, count) = keep_pairs(low, others & 0xFF);
    let (second, more) = keep_pairs(high, others >> 8);
    (first, count, second, more)
}

#[inline(always)]
pub fn write_latin1(block: u8x16, dst: &mut [u8], at: usize) -> usize
    requires dst_length { at + 32 ≤ length dst.old }
    ensures length_bound { result ≤ 32 }
    ensures out_length { result ≡ length (encode_utf8_all block) }
    ensures written { dst.new ≡ take at dst.old ++ (encode_utf8_all block ++ drop
        (at + result) dst.old) }
{
    let (first, count, second, more) = encode_latin1(block);
    write_both(dst, at, first, count, second, more);
    count + more
}

/// One vector has the first eight bytes and the last eight, which may overlap. The UTF-8 of the last ones is
/// stored after that of the bytes before them. Out of line, so that a longer text needs no more registers
/// than it uses.
#[inline(never)]
pub fn write_few_latin1(src: &[u8], dst: &mut [u8]) -> usize
    requires src_length { (8 ≤ length src.now) × (length src.now ≤ 16) }
    requires dst_length { 2 * length src.now ≤ length dst.old }
    ensures written { WritesPrefix dst.old dst.new result (encode_utf8_all src.now) }
{
    let last = src.len() - HALF_STRIDE;
    let block = first_and_last_eight(src);
    let before = utf8_length_of_first(block, last);
    let (first, _, second, more) = encode_latin1(block);
    write_both(dst, 0, first, before, second, more);
    before + more
}

#[inline(always)]
fn store_latin1(block: u8x16, dst: &mut [u8], at: usize) -> usize
    requires dst_length { at + 32 ≤ length dst.old }
    ensures length_bound { (16 ≤ result) × (result ≤ 32) }
    ensures stored { Spills dst.old dst.new at result 16 (encode_utf8_all block) }
{
    let (first, count, second, more) = encode_latin1(block);
    store_two(dst, at, first, count, second, more);
    count + more
}

/// Each stride overwrites what the one before it changed after its own bytes, and only the last one restores
/// what follows: to restore it each time would wait for the store before.
#[inline(always)]
pub fn write_latin1_block(src: &[u8], from: usize, dst: &mut [u8], at: usize) -> usize
    requires within { from + 64 ≤ length src.now }
    requires dst_length { at + 128 ≤ length dst.old }
    ensures length_bound { result ≤ 128 }
    ensures out_length { result ≡ length (encode_utf8_all (take 64 (drop from src.now))) }
    ensures written { dst.new ≡ take at dst.old ++ (encode_utf8_all (take 64 (drop from src.now))
        ++ drop (at + result) dst.old) }
{
    let first = store_latin1(u8x16::from_slice(&src[from..]), dst, at);
    let second = store_latin1(u8x16::from_slice(&src[from + STRIDE..]), dst, at + first);
    let two = first + second;
    let third = store_latin1(u8x16::from_slice(&src[from + 2 * STRIDE..]), dst, at + two);
    let three = two + third;
    let fourth = write_latin1(
        u8x16::from_slice(&src[from + 3 * STRIDE..]),
        dst,
        at + three,
    );
    three + fourth
}

#[inline(always)]
pub fn utf8_length_of_first(block: u8x16, count: usize) -> usize
    requires { count ≤ 16 }
    ensures out_length { result ≡ length (encode_utf8_all (take count block)) }
    ensures length_bound { result ≤ 2 * count }
{
    let others = mask_of_others(block) & ((1 << count) - 1);
    count + others.count_ones() as usize
}
