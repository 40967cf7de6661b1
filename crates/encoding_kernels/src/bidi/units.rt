//! Right-to-left UTF-16 code units by blocks: look-ups show that a block has none. Four tables, by the four nibbles
//! of a code unit, each leave some groups possible. A group has a bit, and holds the unit if all four leave it. Fewer
//! units than a block are tested by ranges.

ghost use Rattle.std.specs.Prelude.{◌≡◌, false, ℕ, ◌+◌, ◌*◌, ◌/◌, ◌%◌, ◌<◌, ◌≤◌, length, slice_index, IsTrue, bit_and};
ghost use Rattle.std.specs.Int.{IsInRange};
ghost use Rattle.encoding_definitions.specs.Bidi.{IsRightToLeftUnit};
ghost use Rattle.encoding_kernels.specs.RightToLeft.{NoneRightToLeft, in_range, may_be_right_to_left};
ghost use Rattle.encoding_kernels.specs.Scans.{HasLanes};

use crate::simd::lookup::table;
use crate::simd::scan::{AllPass, Test, is_zero, skip, skip_to_end};
use crate::simd::units::UnitsBelow;
use crate::simd::width::{HALF_UNIT_BLOCK, STRIDE, UNIT_STRIDE};
use crate::tuning::{LOW_UNITS, MOST_UNIT_BLOCKS};
use std::simd::Simd;
use std::simd::prelude::*;

/// The first right-to-left code unit.
pub const FIRST_UNIT: u16 = 0x0590;

/// 0590 to 05FF.
const HEBREW: u8 = 1;

/// 0600 to 08FF.
const ARABIC: u8 = 1 << 1;

/// 200F.
const MARK: u8 = 1 << 2;

/// 202B and 202E.
const EMBEDDINGS: u8 = 1 << 3;

/// 2067.
const ISOLATE: u8 = 1 << 4;

/// D802, D803, D83A and D83B, the high surrogates of U+10800 to U+10FFF and of U+1E800 to U+1EFFF, and also D80A,
/// D80B, D832 and D833.
const HIGH_SURROGATES: u8 = 1 << 5;

/// FB10 to FBFF, FC10 to FCFF, FD10 to FDFF, and FE10 to FEFF.
const FORMS: u8 = 1 << 6;

/// FC00 to FC0F, and FD00 to FD0F.
const FIRST_FORMS: u8 = 1 << 7;

/// All groups but the two of presentation forms, which also hold some units that aren't right-to-left.
const OTHER_GROUPS: u8 = 0x3F;

/// The groups of which each third nibble from 1 on is possible.
const ANY_THIRD: u8 = ARABIC | FORMS;

/// The groups of which each fourth nibble is possible.
const ANY_FOURTH: u8 = HEBREW | ARABIC | FORMS | FIRST_FORMS;

/// The groups that the first nibble leaves possible.
const FIRST: [u8; 32] = table![nibbles
    HEBREW | ARABIC,
    0,
    MARK | EMBEDDINGS | ISOLATE,
    0,
    0,
    0,
    0,
    0,
    0,
    0,
    0,
    0,
    0,
    HIGH_SURROGATES,
    0,
    FORMS | FIRST_FORMS,
];

/// The groups that the second nibble leaves possible.
const SECOND: [u8; 32] = table![nibbles
    MARK | EMBEDDINGS | ISOLATE,
    0,
    0,
    0,
    0,
    HEBREW,
    ARABIC,
    ARABIC,
    ARABIC | HIGH_SURROGATES,
    0,
    0,
    FORMS,
    FORMS | FIRST_FORMS,
    FORMS | FIRST_FORMS,
    FORMS,
    0,
];

/// The groups that the third nibble leaves possible.
const THIRD: [u8; 32] = table![nibbles
    ARABIC | MARK | HIGH_SURROGATES | FIRST_FORMS,
    ANY_THIRD,
    ANY_THIRD | EMBEDDINGS,
    ANY_THIRD | HIGH_SURROGATES,
    ANY_THIRD,
    ANY_THIRD,
    ANY_THIRD | ISOLATE,
    ANY_THIRD,
    ANY_THIRD,
    ANY_THIRD | HEBREW,
    ANY_THIRD | HEBREW,
    ANY_THIRD | HEBREW,
    ANY_THIRD | HEBREW,
    ANY_THIRD | HEBREW,
    ANY_THIRD | HEBREW,
    ANY_THIRD | HEBREW,
];

/// The groups that the fourth nibble leaves possible.
const FOURTH: [u8; 32] = table![nibbles
    ANY_FOURTH,
    ANY_FOURTH,
    ANY_FOURTH | HIGH_SURROGATES,
    ANY_FOURTH | HIGH_SURROGATES,
    ANY_FOURTH,
    ANY_FOURTH,
    ANY_FOURTH,
    ANY_FOURTH | ISOLATE,
    ANY_FOURTH,
    ANY_FOURTH,
    ANY_FOURTH | HIGH_SURROGATES,
    ANY_FOURTH | EMBEDDINGS | HIGH_SURROGATES,
    ANY_FOURTH,
    ANY_FOURTH,
    ANY_FOURTH | EMBEDDINGS,
    ANY_FOURTH | MARK,
];

/// The groups that all four tables leave possible, by the upper and lower bytes of 32 code units.
#[inline(always)]
fn groups_of_32(upper: u8x32, lower: u8x32) -> u8x32
    ensures length { length result ≡ 32 }
    ensures lanes { (i : ℕ) → i < 32 → slice_index result i ≡ 0
        → IsRightToLeftUnit (slice_index lower i + 0x100 * slice_index upper i) → ⊥ }
    ensures others { (i : ℕ) → i < 32 → bit_and (slice_index result i) 0x3F ≡ 0
        → IsRightToLeftUnit (slice_index lower i + 0x100 * slice_index upper i)
        → IsInRange 0xFB1D 0xFEFE (slice_index lower i + 0x100 * slice_index upper i) }
{
    let (four, nibble) = (u8x32::splat(4), u8x32::splat(15));
    let by_upper = u8x32::from_slice(&FIRST).swizzle_dyn_within::<16>(upper >> four)
        & u8x32::from_slice(&SECOND).swizzle_dyn_within::<16>(upper & nibble);
    let by_lower = u8x32::from_slice(&THIRD).swizzle_dyn_within::<16>(lower >> four)
        & u8x32::from_slice(&FOURTH).swizzle_dyn_within::<16>(lower & nibble);
    by_upper & by_lower
}

#[inline(always)]
fn bytes_of_32(units: &[u16], at: usize) -> (u8x32, u8x32)
    requires { at + 32 ≤ length units.now }
    ensures upper { HasLanes 32 result.0 (λ k. slice_index units.now (at + k) / 0x100) }
    ensures lower { HasLanes 32 result.1 (λ k. slice_index units.now (at + k) % 0x100) }
{
    let block = u16x32::from_slice(&units[at..]);
    let upper = block >> u16x32::splat(8);
    let lower = block & u16x32::splat(0xFF);
    (upper.cast::<u8>(), lower.cast::<u8>())
}

/// Indices of code units other than FB1D to FEFE, which hold the right-to-left presentation forms.
#[derive(Drop)]
struct NoForms<'a> {
    units: &'a [u16],
}

impl<'a> Test for NoForms<'a> {
    ghost count = { λ s. length s.units.now };

    ghost passes = { λ s k. in_range 0xFB1D 0x03E2 (slice_index s.units.now k) ≡ false };
}

impl<'a, const N: usize> AllPass<N, N> for NoForms<'a> {
    #[inline(always)]
    fn pass(&self, at: usize) -> bool {
        let units = self.units;
        let block = Simd::<u16, N>::from_slice(&units[at..]);
        (block - Simd::splat(0xFB1D))
            .simd_lt(Simd::splat(0x03E2))
            .to_bitmask()
            == 0
    }
}

/// `FORMS_BY_RANGE` tests presentation forms by their range and not by the tables. May return false if there
/// is one of D80A, D80B, D832, D833, or FE10 to FE6F. By the tables it may also for FB10 to FB1C and FEFF,
/// and by the range for FE00 to FE0F.
#[inline(always)]
fn are_32_clear<const FORMS_BY_RANGE: bool>(units: &[u16], at: usize) -> bool
    requires { at + 32 ≤ length units.now }
    ensures { IsTrue result → NoneRightToLeft units.now at (at + 32) }
{
    let (upper, lower) = bytes_of_32(units, at);
    let groups = groups_of_32(upper, lower);
    if !FORMS_BY_RANGE {
        return is_zero(groups);
    }
    is_zero(groups & u8x32::splat(OTHER_GROUPS))
        && AllPass::<HALF_UNIT_BLOCK, HALF_UNIT_BLOCK>::pass(&NoForms { units }, at)
}

/// Indices of code units that aren't right-to-left, by ranges and marks that hold all right-to-left units and some
/// more.
#[derive(Drop)]
struct ClearUnits<'a> {
    units: &'a [u16],
}

impl<'a> Test for ClearUnits<'a> {
    ghost count = { λ s. length s.units.now };

    ghost passes = { λ s k. may_be_right_to_left (slice_index s.units.now k) ≡ false };
}

impl<'a, const N: usize> AllPass<N, N> for ClearUnits<'a> {
    #[inline(always)]
    fn pass(&self, at: usize) -> bool {
        let units = self.units;
        let block = Simd::<u16, N>::from_slice(&units[at..]);
        // zero in each lane that is in the range: a comparison for each would need one more instruction
        let scripts = (block - Simd::splat(0x0590)).saturating_sub(Simd::splat(0x036F));
        let embeddings = (block - Simd::splat(0x202B)).saturating_sub(Simd::splat(3));
        let halves = (block - Simd::splat(0xD802)).saturating_sub(Simd::splat(0x0039));
        let forms = (block - Simd::splat(0xFB1D)).saturating_sub(Simd::splat(0x03E1));
        let ranges = scripts
            .simd_min(embeddings)
            .simd_min(halves.simd_min(forms));
        let marks = block.simd_eq(Simd::splat(0x200F)) | block.simd_eq(Simd::splat(0x2067));
        (ranges.simd_eq(Simd::splat(0)) | marks).to_bitmask() == 0
    }
}

#[inline(always)]
fn skip_unit_blocks_by_range(units: &[u16], from: usize, end: usize) -> usize
    requires { (from ≤ end) × (end ≤ length units.now) }
    ensures within { (from ≤ result) × (result ≤ end) }
    ensures no_rtl { NoneRightToLeft units.now from result }
{
    let mut at = from;
    while end - at >= HALF_UNIT_BLOCK && are_32_clear::<true>(units, at) {
        at += HALF_UNIT_BLOCK;
    }
    at
}

#[inline(always)]
fn skip_clear_unit_blocks(units: &[u16], from: usize, end: usize) -> usize
    requires { (from ≤ end) × (end ≤ length units.now) }
    ensures within { (from ≤ result) × (result ≤ end) }
    ensures no_rtl { NoneRightToLeft units.now from result }
{
    let mut at = from;
    while end - at >= HALF_UNIT_BLOCK {
        if !are_32_clear::<false>(units, at) {
            // the tables hold some more units for forms, and a text with these has many
            return skip_unit_blocks_by_range(units, at, end);
        }
        at += HALF_UNIT_BLOCK;
    }
    at
}

/// Out of line, since most short texts have only low units. If low units are rare, they are tested for less
/// often.
#[inline(never)]
pub fn skip_clear_units(units: &[u16], from: usize) -> usize
    requires { from ≤ length units.now }
    ensures within { (from ≤ result) × (result ≤ length units.now) }
    ensures no_rtl { NoneRightToLeft units.now from result }
{
    let low = UnitsBelow {
        units,
        bound: FIRST_UNIT,
    };
    let mut at = from;
    let mut blocks = 1;
    while units.len() - at >= HALF_UNIT_BLOCK {
        let end = at + HALF_UNIT_BLOCK * blocks.min((units.len() - at) / HALF_UNIT_BLOCK);
        at = skip_clear_unit_blocks(units, at, end);
        if at < end {
            break;
        }
        let next = skip::<STRIDE, HALF_UNIT_BLOCK, _>(&low, at, units.len());
        blocks = if next - at < LOW_UNITS {
            (blocks + 1).min(MOST_UNIT_BLOCKS)
        } else {
            1
        };
        at = next;
    }
    // no farther than a block: the ranges rule out some units that the look-ups don't, and the text goes on after them
    let end = at + HALF_UNIT_BLOCK.min(units.len() - at);
    skip_to_end::<UNIT_STRIDE, UNIT_STRIDE, _>(&ClearUnits { units }, at, end)
}
