//! The length of Latin1 text in UTF-8, and the number of its characters.
ghost use Rattle.std.specs.Prelude.{◌≡◌, ◌≤◌, length, encode_utf8_all};
ghost use Rattle.std.specs.Str.{chars};
ghost use Rattle.std.proofs.Math.Nat.{le_refl};
ghost use Rattle.encoding_definitions.specs.Latin1.{IsUtf8Latin1};
ghost use Rattle.encoding_kernels.specs.Lengths.{sum_over_suffixes, one_if_at_least, one_few};

use crate::simd::sum::{Terms, sum_from};
use crate::simd::width::{ASCII_END, BLOCK, STRIDE};
use crate::tuning::LATIN1_LENGTH_SPAN;
use std::simd::Simd;
use std::simd::prelude::*;

/// A term for each byte: 0 if it is ASCII, else 1.
#[derive(Drop)]
struct BeyondAscii<'a> {
    bytes: &'a [u8],
}

impl<'a, const N: usize> Terms<N> for BeyondAscii<'a> {
    ghost text = { λ s. s.bytes.now };

    ghost term = { λ _. one_if_at_least 0x80 };

    ghost whole = { λ s. length s.bytes.now };

    #[inline(always)]
    fn len(&self) -> usize {
        self.bytes.len()
    }

    #[inline(always)]
    fn end(&self) -> usize {
        self.bytes.len()
    }

    #[inline(always)]
    fn terms(&self, at: usize) -> Simd<u8, N> {
        let bytes = self.bytes;
        let counted = Simd::<u8, N>::from_slice(&bytes[at..]).simd_ge(Simd::splat(ASCII_END));
        counted.select(Simd::splat(1), Simd::splat(0))
    }

    #[tactic(auto, using(crate::proofs::SumLemmas::term_from))]
    #[inline(always)]
    fn term_at(&self, at: usize) -> usize {
        usize::from(self.bytes[at] >= ASCII_END)
    }

    #[inline(always)]
    fn skip(&self, at: usize, _end: usize) -> usize {
        at
    }

    ghost inside = { λ s. le_refl (length s.bytes.now) };

    ghost few = { λ _ xs. one_few 0x80 xs };
}

#[tactic(auto, using(crate::proofs::SumLemmas::ones_most))]
#[inline(always)]
fn count_beyond_ascii(bytes: &[u8]) -> usize
    ensures counted { result ≡ sum_over_suffixes (one_if_at_least 0x80) bytes.now }
    ensures within { result ≤ length bytes.now }
{
    let terms = BeyondAscii { bytes };
    sum_from::<BLOCK, STRIDE, LATIN1_LENGTH_SPAN, _, _>(&terms, &terms, 0)
}

#[tactic(auto, using(crate::proofs::LengthLemmas::latin1_total))]
pub fn utf8_length_of_latin1(bytes: &[u8]) -> usize
    ensures { result ≡ length (encode_utf8_all bytes.now) }
{
    bytes.len() + count_beyond_ascii(bytes)
}

/// Each character has one byte if it is ASCII, and otherwise two bytes that both aren't. A comparison with
/// 0x80 is one instruction, since it is the sign of a byte.
#[tactic(auto, using(crate::proofs::LengthLemmas::chars_total))]
pub fn latin1_length_of_utf8(text: &[u8]) -> usize
    requires { IsUtf8Latin1 text.now }
    ensures { result ≡ length (chars text.now) }
{
    text.len() - count_beyond_ascii(text) / 2
}
