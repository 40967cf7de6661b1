//! Blocks of code units from U+0800 on that are no surrogates.

ghost use Rattle.std.specs.Prelude.{◌≡◌, ℕ, ◌+◌, ◌<◌, ◌≤◌, ◌++◌, length, take};
ghost use Rattle.std.specs.Prelude.{drop, slice_index, encode_utf8_all, IsTrue};
ghost use Rattle.encoding_kernels.specs.Utf8Output.{Spills};

use std::simd::prelude::*;

#[tactic(auto, using(crate::proofs::UniformLemmas::all_long))]
#[inline(always)]
pub(super) fn are_three_byte(units: u16x16) -> bool
    ensures { IsTrue result → (k : ℕ) → k < 16 → (0x800 ≤ slice_index units k)
        × ((0xD800 ≤ slice_index units k) × (slice_index units k ≤ 0xDFFF) → ⊥) }
{
    let tops = units & u16x16::splat(0xF800);
    let others = tops.simd_eq(u16x16::splat(0)) | tops.simd_eq(u16x16::splat(0xD800));
    !others.any()
}

/// The first two bytes of each unit make a word and the last one another, so that no lane is wider than a
/// code unit.
#[tactic(auto, using(crate::proofs::UniformLemmas::long_spelled))]
#[inline(always)]
fn encode_three_byte(units: u16x8) -> (u8x16, u8x8)
    requires { (k : ℕ) → k < 8 → 0x800 ≤ slice_index units k }
    ensures lane_count { (length result.0 ≡ 16) × (length result.1 ≡ 8) }
    ensures spelled { result.0 ++ result.1 ≡ encode_utf8_all units }
{
    let middle = ((units >> u16x8::splat(6)) & u16x8::splat(0x3F)) << u16x8::splat(8);
    let two = (units >> u16x8::splat(12)) + middle + u16x8::splat(0x80E0);
    let last = (units & u16x8::splat(0x3F)) + u16x8::splat(0x80);
    let both = two.to_le_bytes();
    let lasts = last.to_le_bytes();
    let first = both.shuffle(
        lasts,
        [0, 1, 16, 2, 3, 18, 4, 5, 20, 6, 7, 22, 8, 9, 24, 10],
    );
    (first, both.shuffle(lasts, [11, 26, 12, 13, 28, 14, 15, 30]))
}

#[inline(always)]
fn write_eight(units: u16x8, dst: &mut [u8], at: usize)
    requires dst_length { at + 24 ≤ length dst.old }
    requires three_byte { (k : ℕ) → k < 8 → 0x800 ≤ slice_index units k }
    ensures out_length { length (encode_utf8_all units) ≡ 24 }
    ensures written { dst.new ≡ take at dst.old ++ (encode_utf8_all units ++ drop
        (at + 24) dst.old) }
{
    let (first, second) = encode_three_byte(units);
    first.copy_to_slice(&mut dst[at..]);
    second.copy_to_slice(&mut dst[at + 16..]);
}

#[inline(always)]
pub(super) fn write_three_byte(units: u16x16, dst: &mut [u8], at: usize)
    requires dst_length { at + 48 ≤ length dst.old }
    requires lane_count { length units ≡ 16 }
    requires three_byte { (k : ℕ) → k < 16 → 0x800 ≤ slice_index units k }
    ensures { Spills dst.old dst.new at 48 0 (encode_utf8_all units) }
{
    write_eight(units.swizzle([0, 1, 2, 3, 4, 5, 6, 7]), dst, at);
    write_eight(units.swizzle([8, 9, 10, 11, 12, 13, 14, 15]), dst, at + 24);
}
