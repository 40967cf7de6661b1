//! The number of characters and malformed sequences in bytes, without a test of whether they are well-formed.
ghost use Rattle.std.specs.Prelude.{◌≡◌, ◌-◌, ◌+◌, ◌<◌, ◌≤◌, List, length, drop, slice_index};
ghost use Rattle.encoding_definitions.specs.Parts.{Part, ArePartsOf};
ghost use Rattle.encoding_kernels.specs.Scans.{HasLanes};
ghost use Rattle.encoding_kernels.specs.Lengths.{sum_over_suffixes, fewer};
ghost use Rattle.encoding_kernels.specs.Counts.{is_four_bytes, begins_four_bytes, bool_few};
ghost use mir.Val.{bool_byte};

use crate::simd::scan::{BytesBelow, prefix_len_below, skip};
use crate::simd::sum::{LANES, Terms, sum_from};
use crate::simd::width::{BLOCK, HALF_BLOCK, HALF_STRIDE};
use crate::tuning::UTF8_LENGTH_SPAN;
use crate::utf8::length::{byte_at, joins, utf16_length_of_utf8};
use std::simd::Simd;
use std::simd::prelude::*;

/// The least byte that begins a character of four bytes.
const FOUR_BYTE_LEAD: u8 = 0xF0;

/// Without a branch.
#[inline(always)]
fn is_four(lead: u8, second: u8, third: u8, fourth: u8) -> bool
    ensures { result ≡ is_four_bytes lead second third fourth }
{
    (joins(lead, second) & (lead >= FOUR_BYTE_LEAD))
        & ((third >= 0x80) & (third < 0xC0))
        & ((fourth >= 0x80) & (fourth < 0xC0))
}

#[inline(always)]
fn four_lanes<const N: usize>(
    lead: Simd<u8, N>,
    second: Simd<u8, N>,
    third: Simd<u8, N>,
    fourth: Simd<u8, N>,
) -> Simd<u8, N>
    ensures { HasLanes N result
        (λ k. bool_byte (is_four_bytes (slice_index lead.entry k) (slice_index second.entry k)
        (slice_index third.entry k) (slice_index fourth.entry k))) }
{
    // the only first byte of four that may not precede this second byte
    let excluded = second
        .simd_lt(Simd::splat(0x90))
        .select(Simd::splat(0xF0), Simd::splat(0xF4));
    let begins = lead.simd_ge(Simd::splat(0xF0))
        & lead.simd_le(Simd::splat(0xF4))
        & lead.simd_ne(excluded)
        & second.simd_ge(Simd::splat(0x80))
        & second.simd_lt(Simd::splat(0xC0));
    let third_continues = third.simd_ge(Simd::splat(0x80)) & third.simd_lt(Simd::splat(0xC0));
    let fourth_continues = fourth.simd_ge(Simd::splat(0x80)) & fourth.simd_lt(Simd::splat(0xC0));
    let whole = begins & third_continues & fourth_continues;
    whole.select(Simd::<u8, N>::splat(1), Simd::<u8, N>::splat(0))
}

/// A term for each byte: 1 if a character of four bytes begins there, else 0.
#[derive(Drop)]
struct FourBytes<'a> {
    bytes: &'a [u8],
}

impl<'a, const N: usize> Terms<N> for FourBytes<'a> {
    ghost text = { λ s. s.bytes.now };

    ghost term = { λ _. begins_four_bytes };

    ghost whole = { λ s. length s.bytes.now - 3 };

    #[inline(always)]
    fn len(&self) -> usize {
        self.bytes.len()
    }

    #[inline(always)]
    fn end(&self) -> usize {
        self.bytes.len().saturating_sub(3)
    }

    #[tactic(auto, using(crate::proofs::VectorLemmas::HasLanes_same, crate::proofs::SumLemmas::loaded))]
    #[inline(always)]
    fn terms(&self, at: usize) -> Simd<u8, N> {
        let bytes = self.bytes;
        four_lanes(
            Simd::<u8, N>::from_slice(&bytes[at..]),
            Simd::<u8, N>::from_slice(&bytes[at + 1..]),
            Simd::<u8, N>::from_slice(&bytes[at + 2..]),
            Simd::<u8, N>::from_slice(&bytes[at + 3..]),
        )
    }

    #[tactic(auto, using(crate::proofs::CountLemmas::term_four))]
    #[inline(always)]
    fn term_at(&self, at: usize) -> usize {
        let bytes = self.bytes;
        let (second, third) = (byte_at(bytes, at + 1), byte_at(bytes, at + 2));
        usize::from(is_four(bytes[at], second, third, byte_at(bytes, at + 3)))
    }

    #[tactic(auto, using(crate::proofs::CountLemmas::skipped_fours))]
    #[inline(always)]
    fn skip(&self, at: usize, end: usize) -> usize {
        let bytes = self.bytes;
        let shorter = BytesBelow {
            bytes,
            bound: FOUR_BYTE_LEAD,
        };
        skip::<HALF_BLOCK, BLOCK, _>(&shorter, at, end)
    }

    ghost inside = { λ s. fewer (length s.bytes.now) 3 };

    ghost few = { λ _ xs. bool_few
        (is_four_bytes (slice_index xs 0) (slice_index xs 1) (slice_index xs 2) (slice_index xs 3)) };
}

#[inline(never)]
pub(super) fn count_four_bytes(bytes: &[u8]) -> usize
    ensures { result ≡ sum_over_suffixes begins_four_bytes bytes.now }
{
    let terms = FourBytes { bytes };
    let shorter = prefix_len_below(bytes, FOUR_BYTE_LEAD);
    sum_from::<LANES, HALF_STRIDE, UTF8_LENGTH_SPAN, _, _>(&terms, &terms, shorter)
}

/// Each part has one code unit in UTF-16, except that a character of four bytes has two.
pub fn parts_of_utf8(bytes: &[u8]) -> usize
    ensures { (parts : List Part) × ArePartsOf bytes.now parts × (result ≡ length parts) }
{
    utf16_length_of_utf8(bytes) - count_four_bytes(bytes)
}
