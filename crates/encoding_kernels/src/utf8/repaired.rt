//! The length of repaired UTF-8.
ghost use Rattle.std.specs.Prelude.{◌≡◌, ◌-◌, ◌+◌, ◌<◌, ◌≤◌, List, length, slice_index, SomeIff};
ghost use Rattle.encoding_definitions.specs.Parts.{Part, ArePartsOf, lossy_utf8};
ghost use Rattle.encoding_kernels.specs.Scans.{HasLanes};
ghost use Rattle.encoding_kernels.specs.Lengths.{sum_over_suffixes, fewer};
ghost use Rattle.encoding_kernels.specs.RepairedLengths.{bytes_below_three, bytes_below_three_by, below_three_few};

use crate::simd::sum::{LANES, Terms, sum_from};
use crate::simd::width::{ASCII_END, HALF_STRIDE};
use crate::tuning::UTF8_LENGTH_SPAN;
use crate::utf8::count::{count_four_bytes, parts_of_utf8};
use crate::utf8::length::byte_at;
use std::simd::Simd;
use std::simd::prelude::*;

/// Without a branch.
#[inline(always)]
fn below_three(lead: u8, second: u8) -> usize
    ensures { result ≡ bytes_below_three_by lead second }
{
    if lead < ASCII_END {
        return 2;
    }
    let two = ((lead >= 0xC2) & (lead <= 0xDF)) & ((second >= 0x80) & (second <= 0xBF));
    usize::from(two)
}

#[inline(always)]
fn below_three_lanes<const N: usize>(lead: Simd<u8, N>, second: Simd<u8, N>) -> Simd<u8, N>
    ensures { HasLanes N result (λ k. bytes_below_three_by (slice_index lead.entry k)
        (slice_index second.entry k)) }
{
    let begins_two = lead.simd_ge(Simd::splat(0xC2)) & lead.simd_le(Simd::splat(0xDF));
    let continues = second.simd_ge(Simd::splat(0x80)) & second.simd_le(Simd::splat(0xBF));
    let one_or_none = (begins_two & continues).select(
        Simd::<u8, N>::splat(1),
        Simd::<u8, N>::splat(0),
    );
    lead.simd_lt(Simd::splat(0x80))
        .select(Simd::<u8, N>::splat(2), one_or_none)
}

/// A term for each byte: how many bytes below three the character has that begins there.
#[derive(Drop)]
struct BelowThree<'a> {
    bytes: &'a [u8],
}

impl<'a, const N: usize> Terms<N> for BelowThree<'a> {
    ghost text = { λ s. s.bytes.now };

    ghost term = { λ _. bytes_below_three };

    ghost whole = { λ s. length s.bytes.now - 1 };

    #[inline(always)]
    fn len(&self) -> usize {
        self.bytes.len()
    }

    #[inline(always)]
    fn end(&self) -> usize {
        self.bytes.len().saturating_sub(1)
    }

    #[tactic(auto, using(crate::proofs::VectorLemmas::HasLanes_same, crate::proofs::SumLemmas::loaded))]
    #[inline(always)]
    fn terms(&self, at: usize) -> Simd<u8, N> {
        let bytes = self.bytes;
        below_three_lanes(
            Simd::<u8, N>::from_slice(&bytes[at..]),
            Simd::<u8, N>::from_slice(&bytes[at + 1..]),
        )
    }

    #[tactic(auto, using(crate::proofs::CountLemmas::term_below_three))]
    #[inline(always)]
    fn term_at(&self, at: usize) -> usize {
        let bytes = self.bytes;
        below_three(bytes[at], byte_at(bytes, at + 1))
    }

    /// Skips none: most terms of any text are greater than zero.
    #[inline(always)]
    fn skip(&self, at: usize, _end: usize) -> usize {
        at
    }

    ghost inside = { λ s. fewer (length s.bytes.now) 1 };

    ghost few = { λ _ xs. below_three_few xs };
}

/// How many bytes below three the characters of one and two bytes have.
#[inline(never)]
fn sum_below_three(bytes: &[u8]) -> usize
    ensures { result ≡ sum_over_suffixes bytes_below_three bytes.now }
{
    let terms = BelowThree { bytes };
    sum_from::<LANES, HALF_STRIDE, UTF8_LENGTH_SPAN, _, _>(&terms, &terms, 0)
}

pub fn repaired_length(bytes: &[u8]) -> Option<usize>
    ensures { (parts : List Part) × ArePartsOf bytes.now parts
        × SomeIff result (length (lossy_utf8 parts) ≤ usize.MAX) (length (lossy_utf8 parts)) }
{
    let parts = parts_of_utf8(bytes);
    let beyond_one = 2 * parts - sum_below_three(bytes);
    (parts + count_four_bytes(bytes)).checked_add(beyond_one)
}
