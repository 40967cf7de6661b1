//! Right-to-left characters in UTF-8 by blocks: look-ups show that none begins in a block. Six tables, by the nibbles
//! of three adjacent bytes, each leave some groups possible. A group has a bit, and a character of it begins with the
//! three bytes only if all six leave it. Fewer bytes than a block are tested by ranges.

ghost use Rattle.std.specs.Prelude.{◌≡◌, ℕ, false, ◌+◌, ◌-◌, ◌<◌, ◌≤◌, length, slice_index, IsTrue};
ghost use Rattle.encoding_kernels.specs.RightToLeft.{RtlAt, NoRtlIn, rtl_second_end};
ghost use Rattle.encoding_kernels.specs.RightToLeft.{rtl_mark_lead, may_start_rtl, HasNoRtlAt};
ghost use Rattle.encoding_kernels.specs.Scans.{HasLanes};

use crate::simd::lookup::table;
use crate::simd::scan::{AllPass, Test, is_zero, skip, skip_to_end};
use crate::simd::width::{BLOCK, STRIDE};
use crate::tuning::{LOW_BYTES, MOST_BYTE_BLOCKS};
use std::simd::Simd;
use std::simd::prelude::*;

/// The first byte of U+0580 to U+05BF. Characters below these begin with smaller bytes.
pub const FIRST_LEAD: u8 = 0xD6;

/// The first byte of U+2000 to U+2FFF, which include general punctuation. The right-to-left marks in it are U+200F,
/// U+202B, U+202E and U+2067.
const PUNCTUATION_LEAD: u8 = 0xE2;

/// D6 to DF, the first bytes of U+0580 to U+07FF.
const TWO_BYTES: u8 = 1;

/// E0 A0 to E0 A3, the first two bytes of U+0800 to U+08FF.
const FROM_0800: u8 = 1 << 1;

/// E2 80 8F, U+200F.
const MARK: u8 = 1 << 2;

/// E2 80 AB and E2 80 AE, U+202B and U+202E.
const EMBEDDINGS: u8 = 1 << 3;

/// E2 81 A7, U+2067.
const ISOLATE: u8 = 1 << 4;

/// EF AC to EF AF, the first two bytes of U+FB00 to U+FBFF.
const FORMS_FB00: u8 = 1 << 5;

/// EF B0 to EF B7 and EF B9 to EF BB, the first two bytes of U+FC00 to U+FDFF and U+FE40 to U+FEFF.
const FORMS_FC00: u8 = 1 << 6;

/// F0 90 A0 to F0 90 BF and F0 9E A0 to F0 9E BF, the first three bytes of U+10800 to U+10FFF and U+1E800 to U+1EFFF.
const FOUR_BYTES: u8 = 1 << 7;

/// The groups of which each third byte is possible.
const ANY_THIRD: u8 = TWO_BYTES | FROM_0800 | FORMS_FB00 | FORMS_FC00;

/// The groups of which each low nibble of the third byte is possible.
const ANY_THIRD_LOW: u8 = ANY_THIRD | FOUR_BYTES;

/// The groups that the high nibble of the first byte leaves possible.
const FIRST_HIGH: [u8; 32] = table![nibbles
    0,
    0,
    0,
    0,
    0,
    0,
    0,
    0,
    0,
    0,
    0,
    0,
    0,
    TWO_BYTES,
    FROM_0800 | MARK | EMBEDDINGS | ISOLATE | FORMS_FB00 | FORMS_FC00,
    FOUR_BYTES,
];

/// The groups that the low nibble of the first byte leaves possible.
const FIRST_LOW: [u8; 32] = table![nibbles
    FROM_0800 | FOUR_BYTES,
    0,
    MARK | EMBEDDINGS | ISOLATE,
    0,
    0,
    0,
    TWO_BYTES,
    TWO_BYTES,
    TWO_BYTES,
    TWO_BYTES,
    TWO_BYTES,
    TWO_BYTES,
    TWO_BYTES,
    TWO_BYTES,
    TWO_BYTES,
    TWO_BYTES | FORMS_FB00 | FORMS_FC00,
];

/// The groups that the high nibble of the second byte leaves possible.
const SECOND_HIGH: [u8; 32] = table![nibbles
    TWO_BYTES,
    TWO_BYTES,
    TWO_BYTES,
    TWO_BYTES,
    TWO_BYTES,
    TWO_BYTES,
    TWO_BYTES,
    TWO_BYTES,
    TWO_BYTES | MARK | EMBEDDINGS | ISOLATE,
    TWO_BYTES | FOUR_BYTES,
    TWO_BYTES | FROM_0800 | FORMS_FB00,
    TWO_BYTES | FORMS_FC00,
    TWO_BYTES,
    TWO_BYTES,
    TWO_BYTES,
    TWO_BYTES,
];

/// The groups that the low nibble of the second byte leaves possible.
const SECOND_LOW: [u8; 32] = table![nibbles
    TWO_BYTES | FROM_0800 | MARK | EMBEDDINGS | FORMS_FC00 | FOUR_BYTES,
    TWO_BYTES | FROM_0800 | ISOLATE | FORMS_FC00,
    TWO_BYTES | FROM_0800 | FORMS_FC00,
    TWO_BYTES | FROM_0800 | FORMS_FC00,
    TWO_BYTES | FORMS_FC00,
    TWO_BYTES | FORMS_FC00,
    TWO_BYTES | FORMS_FC00,
    TWO_BYTES | FORMS_FC00,
    TWO_BYTES,
    TWO_BYTES | FORMS_FC00,
    TWO_BYTES | FORMS_FC00,
    TWO_BYTES | FORMS_FC00,
    TWO_BYTES | FORMS_FB00,
    TWO_BYTES | FORMS_FB00,
    TWO_BYTES | FORMS_FB00 | FOUR_BYTES,
    TWO_BYTES | FORMS_FB00,
];

/// The groups that the high nibble of the third byte leaves possible.
const THIRD_HIGH: [u8; 32] = table![nibbles
    ANY_THIRD,
    ANY_THIRD,
    ANY_THIRD,
    ANY_THIRD,
    ANY_THIRD,
    ANY_THIRD,
    ANY_THIRD,
    ANY_THIRD,
    ANY_THIRD | MARK,
    ANY_THIRD,
    ANY_THIRD | EMBEDDINGS | ISOLATE | FOUR_BYTES,
    ANY_THIRD | FOUR_BYTES,
    ANY_THIRD,
    ANY_THIRD,
    ANY_THIRD,
    ANY_THIRD,
];

/// The groups that the low nibble of the third byte leaves possible.
const THIRD_LOW: [u8; 32] = table![nibbles
    ANY_THIRD_LOW,
    ANY_THIRD_LOW,
    ANY_THIRD_LOW,
    ANY_THIRD_LOW,
    ANY_THIRD_LOW,
    ANY_THIRD_LOW,
    ANY_THIRD_LOW,
    ANY_THIRD_LOW | ISOLATE,
    ANY_THIRD_LOW,
    ANY_THIRD_LOW,
    ANY_THIRD_LOW,
    ANY_THIRD_LOW | EMBEDDINGS,
    ANY_THIRD_LOW,
    ANY_THIRD_LOW,
    ANY_THIRD_LOW | EMBEDDINGS,
    ANY_THIRD_LOW | MARK,
];

/// The groups that all six tables leave possible, by the bytes at each index and the two that follow.
#[inline(always)]
fn groups_of_32(bytes: &[u8], at: usize) -> u8x32
    requires { at + 34 ≤ length bytes.now }
    ensures length { length result ≡ 32 }
    ensures lanes { (i : ℕ) → i < 32 → slice_index result i ≡ 0 → RtlAt bytes.now (at + i) → ⊥ }
{
    let first = u8x32::from_slice(&bytes[at..]);
    let second = u8x32::from_slice(&bytes[at + 1..]);
    let third = u8x32::from_slice(&bytes[at + 2..]);
    let (four, nibble) = (u8x32::splat(4), u8x32::splat(15));
    let by_first = u8x32::from_slice(&FIRST_HIGH).swizzle_dyn_within::<16>(first >> four)
        & u8x32::from_slice(&FIRST_LOW).swizzle_dyn_within::<16>(first & nibble);
    let by_second = u8x32::from_slice(&SECOND_HIGH).swizzle_dyn_within::<16>(second >> four)
        & u8x32::from_slice(&SECOND_LOW).swizzle_dyn_within::<16>(second & nibble);
    let by_third = u8x32::from_slice(&THIRD_HIGH).swizzle_dyn_within::<16>(third >> four)
        & u8x32::from_slice(&THIRD_LOW).swizzle_dyn_within::<16>(third & nibble);
    by_first & by_second & by_third
}

/// May return false if there is one of U+0580 to U+058F, U+FB00 to U+FB1C, U+FE40 to U+FE6F, or U+FEFF, or
/// bytes that aren't well-formed.
#[inline(always)]
fn are_64_clear(bytes: &[u8], at: usize) -> bool
    requires { at + 66 ≤ length bytes.now }
    ensures { IsTrue result → NoRtlIn bytes.now at (at + 64) }
{
    let first = groups_of_32(bytes, at);
    let second = groups_of_32(bytes, at + 32);
    is_zero(first | second)
}

/// Returns, for each lane, the first byte of a right-to-left mark if one may end with it; else 0xF0, with
/// which other right-to-left characters begin in any case.
#[inline(always)]
fn mark_leads<const N: usize>(third: Simd<u8, N>) -> Simd<u8, N>
    ensures { HasLanes N result (λ k. rtl_mark_lead (slice_index third.entry k)) }
{
    let ends_mark = third.simd_eq(Simd::splat(0x8F))
        | third.simd_eq(Simd::splat(0xA7))
        | third.simd_eq(Simd::splat(0xAB))
        | third.simd_eq(Simd::splat(0xAE));
    ends_mark.select(Simd::splat(PUNCTUATION_LEAD), Simd::splat(0xF0))
}

/// Returns, for each lane, an exclusive bound of the second byte of the right-to-left characters that begin
/// with it; 0 if there are none.
#[inline(always)]
fn second_ends<const N: usize>(first: Simd<u8, N>, third: Simd<u8, N>) -> Simd<u8, N>
    ensures { HasLanes N result
        (λ k. rtl_second_end (slice_index first.entry k)
        (rtl_mark_lead (slice_index third.entry k))) }
{
    let none = Simd::splat(0);
    let hebrew = first.simd_ge(Simd::splat(FIRST_LEAD)) & first.simd_lt(Simd::splat(0xE0));
    hebrew.select(Simd::splat(0xFF), none)
        | first
            .simd_eq(Simd::splat(0xE0))
            .select(Simd::splat(0xA4), none)
        | first
            .simd_eq(Simd::splat(0xEF))
            .select(Simd::splat(0xBC), none)
        | first
            .simd_eq(Simd::splat(0xF0))
            .select(Simd::splat(0x9F), none)
        | first
            .simd_eq(mark_leads(third))
            .select(Simd::splat(0x82), none)
}

/// Indices of bytes that begin no right-to-left character: those below `FIRST_LEAD`, and those of punctuation.
#[derive(Drop)]
struct LowBytes<'a> {
    bytes: &'a [u8],
}

impl<'a> Test for LowBytes<'a> {
    ghost count = { λ s. length s.bytes.now - 2 };

    ghost passes = { λ s k. may_start_rtl (slice_index s.bytes.now k)
        (rtl_mark_lead (slice_index s.bytes.now (k + 2))) ≡ false };
}

impl<'a, const N: usize> AllPass<N, N> for LowBytes<'a> {
    #[inline(always)]
    fn pass(&self, at: usize) -> bool {
        let bytes = self.bytes;
        let first = Simd::<u8, N>::from_slice(&bytes[at..]);
        let third = Simd::<u8, N>::from_slice(&bytes[at + 2..]);
        let high = first.simd_ge(Simd::splat(FIRST_LEAD));
        let others = high ^ first.simd_eq(Simd::splat(PUNCTUATION_LEAD));
        (others | first.simd_eq(mark_leads(third))).to_bitmask() == 0
    }
}

/// Indices of bytes at which no right-to-left character can begin.
#[derive(Drop)]
struct ClearBytes<'a> {
    bytes: &'a [u8],
}

impl<'a> Test for ClearBytes<'a> {
    ghost count = { λ s. length s.bytes.now - 2 };

    ghost passes = { λ s k. HasNoRtlAt s.bytes.now k };
}

impl<'a, const N: usize> AllPass<N, N> for ClearBytes<'a> {
    #[inline(always)]
    fn pass(&self, at: usize) -> bool {
        let bytes = self.bytes;
        let first = Simd::<u8, N>::from_slice(&bytes[at..]);
        let second = Simd::<u8, N>::from_slice(&bytes[at + 1..]);
        let third = Simd::<u8, N>::from_slice(&bytes[at + 2..]);
        second.simd_lt(second_ends(first, third)).to_bitmask() == 0
    }
}

/// Skips blocks. If low bytes are rare, they are tested for less often.
pub fn skip_clear(bytes: &[u8], from: usize) -> usize
    requires { from ≤ length bytes.now }
    ensures within { (from ≤ result) × (result ≤ length bytes.now) }
    ensures no_rtl { NoRtlIn bytes.now from result }
{
    let low = LowBytes { bytes };
    let mut at = from;
    let mut blocks = 1;
    while bytes.len() - at >= BLOCK + 2 {
        let end = at + BLOCK * blocks.min((bytes.len() - 2 - at) / BLOCK);
        while end - at >= BLOCK && are_64_clear(bytes, at) {
            at += BLOCK;
        }
        if at < end {
            break;
        }
        let next = skip::<BLOCK, BLOCK, _>(&low, at, bytes.len() - 2);
        blocks = if next - at < LOW_BYTES {
            (blocks + 1).min(MOST_BYTE_BLOCKS)
        } else {
            1
        };
        at = next;
    }
    if bytes.len() - at < 2 {
        return at;
    }
    skip_to_end::<STRIDE, STRIDE, _>(&ClearBytes { bytes }, at, bytes.len() - 2)
}
