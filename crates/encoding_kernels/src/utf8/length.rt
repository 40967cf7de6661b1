//! The length of UTF-8 in UTF-16, without a test of whether it is well-formed.
ghost use Rattle.std.specs.Prelude.{◌≡◌, ◌-◌, ◌+◌, ◌<◌, ◌≤◌, List, length, drop, slice_index};
ghost use Rattle.encoding_definitions.specs.Parts.{Part, ArePartsOf, lossy_utf16};
ghost use Rattle.encoding_kernels.specs.Scans.{BelowUpTo, HasLanes};
ghost use Rattle.encoding_kernels.specs.Lengths.{sum_over_suffixes, goes_second, continuations};
ghost use Rattle.encoding_kernels.specs.Lengths.{continuations_by, continuations_few, fewer};

use crate::simd::scan::{BytesBelow, pass_short, prefix_len_below, skip};
use crate::simd::sum::{LANES, Terms, sum_from};
use crate::simd::width::{ASCII_END, BLOCK, HALF_BLOCK, HALF_STRIDE};
use crate::tuning::UTF8_LENGTH_SPAN;
use std::simd::Simd;
use std::simd::prelude::*;

/// Without a branch.
#[inline(always)]
pub(super) fn joins(lead: u8, second: u8) -> bool
    ensures { result ≡ goes_second lead second }
{
    // the only first bytes of three and of four that may not precede this second byte
    let three_byte_formula = if second < 0xA0 { 0xE0 } else { 0xED };
    let four_byte_formula = if second < 0x90 { 0xF0 } else { 0xF4 };
    let begins = (lead >= 0xC2)
        & (lead <= 0xF4)
        & (lead != three_byte_formula)
        & (lead != four_byte_formula);
    begins & (second >= 0x80) & (second < 0xC0)
}

/// Without a branch.
#[inline(always)]
fn joined_after(lead: u8, second: u8, third: u8) -> usize
    ensures { result ≡ continuations_by lead second third }
{
    let both = joins(lead, second);
    let goes_on = both & (lead >= 0xE0) & (third >= 0x80) & (third < 0xC0);
    usize::from(both) + usize::from(goes_on)
}

#[inline(always)]
fn joined_lanes<const N: usize>(
    lead: Simd<u8, N>,
    second: Simd<u8, N>,
    third: Simd<u8, N>,
) -> Simd<u8, N>
    ensures { HasLanes N result (λ k. continuations_by (slice_index lead.entry k)
        (slice_index second.entry k) (slice_index third.entry k)) }
{
    // the only first bytes of three and of four that may not precede this second byte
    let three_byte_lead = second
        .simd_lt(Simd::splat(0xA0))
        .select(Simd::splat(0xE0), Simd::splat(0xED));
    let four_byte_lead = second
        .simd_lt(Simd::splat(0x90))
        .select(Simd::splat(0xF0), Simd::splat(0xF4));
    let begins = lead.simd_ge(Simd::splat(0xC2))
        & lead.simd_le(Simd::splat(0xF4))
        & lead.simd_ne(three_byte_lead)
        & lead.simd_ne(four_byte_lead);
    let both = begins & (second & Simd::splat(0xC0)).simd_eq(Simd::splat(0x80));
    let goes_on = both
        & lead.simd_ge(Simd::splat(0xE0))
        & (third & Simd::splat(0xC0)).simd_eq(Simd::splat(0x80));
    let one = Simd::<u8, N>::splat(1);
    let zero = Simd::<u8, N>::splat(0);
    both.select(one, zero) + goes_on.select(one, zero)
}

/// Returns zero past the last byte.
#[inline(always)]
pub(super) fn byte_at(bytes: &[u8], at: usize) -> u8
    ensures { result ≡ slice_index bytes.now at }
{
    if at < bytes.len() { bytes[at] } else { 0 }
}

/// A term for each byte: how many of the two after it are the second and the third of the sequence that it begins. The
/// fourth isn't counted, since a character of four bytes has two code units.
#[derive(Drop)]
struct Joined<'a> {
    bytes: &'a [u8],
}

impl<'a, const N: usize> Terms<N> for Joined<'a> {
    ghost text = { λ s. s.bytes.now };

    ghost term = { λ _. continuations };

    ghost whole = { λ s. length s.bytes.now - 2 };

    #[inline(always)]
    fn len(&self) -> usize {
        self.bytes.len()
    }

    #[inline(always)]
    fn end(&self) -> usize {
        self.bytes.len().saturating_sub(2)
    }

    #[tactic(auto, using(crate::proofs::VectorLemmas::HasLanes_same, crate::proofs::SumLemmas::loaded))]
    #[inline(always)]
    fn terms(&self, at: usize) -> Simd<u8, N> {
        let bytes = self.bytes;
        joined_lanes(
            Simd::<u8, N>::from_slice(&bytes[at..]),
            Simd::<u8, N>::from_slice(&bytes[at + 1..]),
            Simd::<u8, N>::from_slice(&bytes[at + 2..]),
        )
    }

    #[tactic(auto, using(crate::proofs::SumLemmas::term_joined))]
    #[inline(always)]
    fn term_at(&self, at: usize) -> usize {
        let bytes = self.bytes;
        joined_after(bytes[at], byte_at(bytes, at + 1), byte_at(bytes, at + 2))
    }

    #[tactic(auto, using(crate::proofs::SumLemmas::ascii_joined, crate::proofs::SumLemmas::skipped_to))]
    #[inline(always)]
    fn skip(&self, at: usize, end: usize) -> usize {
        let bytes = self.bytes;
        let ascii = BytesBelow {
            bytes,
            bound: ASCII_END,
        };
        skip::<HALF_BLOCK, BLOCK, _>(&ascii, at, end)
    }

    ghost inside = { λ s. fewer (length s.bytes.now) 2 };

    ghost few = { λ _ xs. continuations_few xs };
}

#[inline(never)]
fn count_joined(bytes: &[u8], ascii: usize) -> usize
    requires { ascii ≤ length bytes.now }
    ensures { result ≡ sum_over_suffixes continuations (drop ascii bytes.now) }
{
    let terms = Joined { bytes };
    sum_from::<LANES, HALF_STRIDE, UTF8_LENGTH_SPAN, _, _>(&terms, &terms, ascii)
}

/// Nothing is left to count if the text is ASCII.
#[tactic(auto, using(crate::proofs::SumLemmas::total_end))]
#[inline(always)]
fn count_joined_after(bytes: &[u8], ascii: usize) -> usize
    requires { ascii ≤ length bytes.now }
    ensures { result ≡ sum_over_suffixes continuations (drop ascii bytes.now) }
{
    if ascii == bytes.len() {
        return 0;
    }
    count_joined(bytes, ascii)
}

/// Two vectors test a text of at most 64 bytes, which is often ASCII.
#[inline(always)]
fn ascii_prefix_len(bytes: &[u8]) -> usize
    ensures { (result ≤ length bytes.now) × BelowUpTo 0x80 bytes.now result }
{
    let bound = ASCII_END;
    if bytes.len() <= BLOCK && pass_short::<BLOCK, _>(&BytesBelow { bytes, bound }, bytes.len()) {
        return bytes.len();
    }
    prefix_len_below(bytes, ASCII_END)
}

pub fn utf16_length_of_utf8(bytes: &[u8]) -> usize
    ensures { (parts : List Part) × ArePartsOf bytes.now parts
        × (result ≡ length (lossy_utf16 parts)) }
{
    let ascii = ascii_prefix_len(bytes);
    bytes.len() - count_joined_after(bytes, ascii)
}
