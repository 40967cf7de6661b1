//! Looks up by a mask which bytes are kept of eight pairs, or of four lanes of four bytes and in which order, and
//! selects them.

ghost use Rattle.std.specs.Prelude.{◌≡◌, ℕ, ◌+◌, ◌*◌, ◌<◌, ◌≤◌, ◌++◌, Bool, List, length, map, take, drop, slice_index};
ghost use Rattle.std.specs.Simd.Lanes.{mask_l};
ghost use Rattle.encoding_kernels.specs.KeptBytes.{kept_places, unit_places};
ghost use Rattle.encoding_kernels.specs.Utf8Output.{Spills};

use crate::simd::lookup::table;
use crate::simd::width::LANE_INDICES;
use std::simd::prelude::*;

/// For each mask of eight pairs of bytes, the indices of the bytes that are kept: the first of each pair, and the
/// second if its bit is set. Zeros follow.
const PLACES: [u32; 1024] =
    table!(pairs [14u128 12u128 10u128 8u128 6u128 4u128 2u128 0u128] 0u128);

#[inline(always)]
fn places_word(at: usize) -> u32
    requires { at < 1024 }
    ensures { result ≡ slice_index PLACES at }
{
    PLACES[at]
}

/// The indices that a mask keeps, followed by zeros.
#[inline(always)]
pub(crate) fn places_by(mask: usize) -> u8x16
    requires { mask < 256 }
    ensures lane_count { length result ≡ 16 }
    ensures within { (k : ℕ) → k < 16 → slice_index result k < 16 }
    ensures kept { (tests : List Bool) → length tests ≡ 8 → mask ≡ mask_l tests
        → take (length (kept_places 0 tests)) result ≡ kept_places 0 tests }
{
    u32x4::from_array([
        places_word(4 * mask),
        places_word(4 * mask + 1),
        places_word(4 * mask + 2),
        places_word(4 * mask + 3),
    ])
    .to_le_bytes()
}

#[inline(always)]
pub(crate) fn keep_pairs(pairs: u8x16, mask: usize) -> (u8x16, usize)
    requires { mask < 256 }
    ensures lane_count { length result.0 ≡ 16 }
    ensures out_length { (8 ≤ result.1) × (result.1 ≤ 16) }
    ensures kept { (tests : List Bool) → length tests ≡ 8 → mask ≡ mask_l tests
        → take result.1 result.0 ≡ map (λ k. slice_index pairs k) (kept_places 0 tests) }
{
    (
        pairs.swizzle_dyn(places_by(mask)),
        8 + mask.count_ones() as usize,
    )
}

/// Stores sixteen bytes at `at` and then sixteen after the first ones.
#[inline(always)]
pub(crate) fn write_both(
    dst: &mut [u8],
    at: usize,
    first: u8x16,
    count: usize,
    second: u8x16,
    more: usize,
)
    requires dst_length { at + (16 + count) ≤ length dst.old }
    requires first_lanes { (count ≤ 16) × (length first ≡ 16) }
    requires second { (more ≤ 16) × (length second ≡ 16) }
    ensures { dst.new ≡ take at dst.old ++ ((take count first ++ take more second) ++ drop
        (at + (count + more)) dst.old) }
{
    let next = at + count;
    let following = u8x16::from_slice(&dst[next..]);
    first.copy_to_slice(&mut dst[at..]);
    let is_kept = u8x16::from_array(LANE_INDICES).simd_lt(u8x16::splat(more as u8));
    is_kept
        .select(second, following)
        .copy_to_slice(&mut dst[next..]);
}

#[inline(always)]
pub(crate) fn store_two(
    dst: &mut [u8],
    at: usize,
    first: u8x16,
    count: usize,
    second: u8x16,
    more: usize,
)
    requires dst_length { at + 32 ≤ length dst.old }
    requires first_lanes { (count ≤ 16) × (length first ≡ 16) }
    requires second { (more ≤ 16) × (length second ≡ 16) }
    ensures { Spills dst.old dst.new at (count + more) 16 (take count first ++ take more second) }
{
    first.copy_to_slice(&mut dst[at..]);
    second.copy_to_slice(&mut dst[at + count..]);
}

/// For each mask of four lanes, the indices of the bytes that are kept: of a lane the first one if the first of its
/// bits is set, else the last and the second if the second is, else the third, the last and the second. Zeros follow,
/// and in the fourth word the number of the indices.
const UNIT_PLACES: [u32; 1024] = table!(units [12u128 8u128 4u128 0u128] 0u128, 0u32);

#[inline(always)]
fn unit_places_word(at: usize) -> u32
    requires { at < 1024 }
    ensures { result ≡ slice_index UNIT_PLACES at }
{
    UNIT_PLACES[at]
}

#[inline(always)]
pub(crate) fn unit_places_by(mask: usize) -> (u8x16, usize)
    requires { mask < 256 }
    ensures lane_count { length result.0 ≡ 16 }
    ensures within { (k : ℕ) → k < 16 → slice_index result.0 k < 16 }
    ensures length_bound { result.1 ≤ 12 }
    ensures kept { (tests : List Bool) → length tests ≡ 8 → mask ≡ mask_l tests
        → take result.1 result.0 ≡ unit_places 0 tests }
{
    let count = unit_places_word(4 * mask + 3);
    let words = u32x4::from_array([
        unit_places_word(4 * mask),
        unit_places_word(4 * mask + 1),
        unit_places_word(4 * mask + 2),
        count,
    ]);
    (words.to_le_bytes(), count as usize)
}

#[inline(always)]
pub(crate) fn select_in_halves(bytes: u8x32, first: u8x16, second: u8x16) -> (u8x16, u8x16)
    requires lane_count { (length first ≡ 16) × (length second ≡ 16) }
    requires within { (k : ℕ) → k < 16 → (slice_index first k < 16) × (slice_index second k < 16) }
    ensures lower { result.0 ≡ map (λ k. slice_index bytes k) first }
    ensures upper { result.1 ≡ map (λ k. slice_index bytes (16 + k)) second }
{
    let places = first.shuffle(
        second,
        [
            0, 1, 2, 3, 4, 5, 6, 7, 8, 9, 10, 11, 12, 13, 14, 15, 16, 17, 18, 19, 20, 21, 22, 23,
            24, 25, 26, 27, 28, 29, 30, 31,
        ],
    );
    let selected = bytes.swizzle_dyn_within::<16>(places);
    (
        selected.swizzle([0, 1, 2, 3, 4, 5, 6, 7, 8, 9, 10, 11, 12, 13, 14, 15]),
        selected.swizzle([
            16, 17, 18, 19, 20, 21, 22, 23, 24, 25, 26, 27, 28, 29, 30, 31,
        ]),
    )
}
