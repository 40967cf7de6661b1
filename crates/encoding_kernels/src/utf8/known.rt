//! The number of characters of text that is known to be well-formed, and the length of its UTF-16. Only the first byte of a
//! character isn't a continuation byte, and only the first byte of four is greater than EF.
ghost use Rattle.std.specs.Prelude.{◌≡◌, length, slice_index, true, false};
ghost use Rattle.std.specs.Char.Escape.{encode_utf16};
ghost use Rattle.std.specs.List.{flat_map};
ghost use Rattle.std.specs.Str.{IsUtf8, chars};
ghost use Rattle.std.proofs.Math.Nat.{le_refl};
ghost use Rattle.encoding_kernels.specs.Scans.{HasLanes};
ghost use Rattle.encoding_kernels.specs.Lengths.{sum_over_suffixes};
ghost use Rattle.encoding_kernels.specs.KnownLengths.{begins, begins_by, begins_few};

use crate::scalar::is_continuation;
use crate::simd::scan::prefix_len_below;
use crate::simd::sum::{Terms, sum_from};
use crate::simd::width::{ASCII_END, BLOCK, STRIDE};
use crate::tuning::LATIN1_LENGTH_SPAN;
use std::simd::Simd;
use std::simd::prelude::*;

/// The least first byte of four.
const FOUR_BYTE_LEAD: u8 = 0xF0;

/// Returns what begins with a byte, without a branch.
#[inline(always)]
fn begun_by<const PAIRS: bool>(byte: u8) -> usize
    ensures { result ≡ begins_by PAIRS byte }
{
    usize::from(!is_continuation(byte)) + usize::from((byte >= FOUR_BYTE_LEAD) & PAIRS)
}

/// Returns what begins with the byte of each lane.
#[inline(always)]
fn begun_lanes<const N: usize, const PAIRS: bool>(bytes: Simd<u8, N>) -> Simd<u8, N>
    ensures { HasLanes N result (λ k. begins_by PAIRS (slice_index bytes.entry k)) }
{
    let one = Simd::<u8, N>::splat(1);
    let zero = Simd::<u8, N>::splat(0);
    let first = (bytes & Simd::splat(0xC0))
        .simd_eq(Simd::splat(0x80))
        .select(zero, one);
    let pairs = bytes.simd_ge(Simd::splat(FOUR_BYTE_LEAD));
    first + pairs.select(Simd::splat(u8::from(PAIRS)), zero)
}

/// A term for each byte: how many characters begin there or, with `PAIRS`, how many code units they have in UTF-16.
#[derive(Drop)]
struct Begun<'a, const PAIRS: bool> {
    bytes: &'a [u8],
}

impl<'a, const N: usize, const PAIRS: bool> Terms<N> for Begun<'a, PAIRS> {
    ghost text = { λ s. s.bytes.now };

    ghost term = { λ _. begins PAIRS };

    ghost whole = { λ s. length s.bytes.now };

    #[inline(always)]
    fn len(&self) -> usize {
        self.bytes.len()
    }

    #[inline(always)]
    fn end(&self) -> usize {
        self.bytes.len()
    }

    #[tactic(auto, using(crate::proofs::VectorLemmas::HasLanes_same, crate::proofs::KnownLengthLemmas::loaded_begun))]
    #[inline(always)]
    fn terms(&self, at: usize) -> Simd<u8, N> {
        begun_lanes::<N, PAIRS>(Simd::from_slice(&self.bytes[at..]))
    }

    #[tactic(auto, using(crate::proofs::KnownLengthLemmas::term_begun))]
    #[inline(always)]
    fn term_at(&self, at: usize) -> usize {
        begun_by::<PAIRS>(self.bytes[at])
    }

    #[inline(always)]
    fn skip(&self, at: usize, _end: usize) -> usize {
        at
    }

    ghost inside = { λ s. le_refl (length s.bytes.now) };

    ghost few = { λ _ xs. begins_few PAIRS xs };
}

/// Returns the sum of the terms.
#[inline(always)]
fn count_begun<const PAIRS: bool>(bytes: &[u8]) -> usize
    ensures { result ≡ sum_over_suffixes (begins PAIRS) bytes.now }
{
    let terms = Begun::<PAIRS> { bytes };
    let ascii = prefix_len_below(bytes, ASCII_END);
    ascii + sum_from::<BLOCK, STRIDE, LATIN1_LENGTH_SPAN, _, _>(&terms, &terms, ascii)
}

/// Returns the number of characters of a text.
#[tactic(auto, using(crate::proofs::KnownLengthLemmas::characters_begun))]
pub fn characters_of_text(text: &[u8]) -> usize
    requires { IsUtf8 text.now }
    ensures { result ≡ length (chars text.now) }
{
    count_begun::<false>(text)
}

/// Returns the number of code units of a text in UTF-16.
#[tactic(auto, using(crate::proofs::KnownLengthLemmas::units_begun))]
pub fn utf16_length_of_text(text: &[u8]) -> usize
    requires { IsUtf8 text.now }
    ensures { result ≡ length (flat_map encode_utf16 (chars text.now)) }
{
    count_begun::<true>(text)
}
