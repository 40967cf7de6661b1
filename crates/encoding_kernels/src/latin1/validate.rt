//! Latin1 in UTF-8, by vectors. Each byte is judged by itself and the one before it, which is loaded separately, so
//! that a block carries no state and the last one may overlap.

ghost use Rattle.std.specs.Prelude.{◌≡◌, false, ◌+◌, ◌-◌, ◌<◌, ◌≤◌, length, take, slice_index};
ghost use Rattle.encoding_definitions.specs.Latin1.{IsUtf8Latin1};
ghost use Rattle.encoding_kernels.specs.Neighbors.{FitLatin1, latin1_fault};

use crate::simd::scan::{AllPass, Test, skip, skip_to_end};
use crate::simd::width::{BLOCK, STRIDE};
use std::simd::Simd;
use std::simd::prelude::*;

/// The least byte that precedes a continuation byte.
const LEAST_LEAD: u8 = 0xC0;

/// The first byte of U+0100. All bytes of the characters below it are smaller, and those above begin with no smaller
/// byte.
pub const BEYOND_LATIN1: u8 = 0xC4;

/// Pairs of adjacent bytes: the second may follow the first in the UTF-8 of Latin1.
#[derive(Drop)]
struct BytePairs<'a> {
    bytes: &'a [u8],
}

impl<'a> Test for BytePairs<'a> {
    ghost count = { λ s. length s.bytes.now - 1 };

    ghost passes = { λ s k. latin1_fault (slice_index s.bytes.now (k + 1)) (slice_index s.bytes.now k) ≡ false };
}

impl<'a, const N: usize> AllPass<N, N> for BytePairs<'a> {
    #[inline(always)]
    fn pass(&self, at: usize) -> bool {
        let bytes = self.bytes;
        let block = Simd::<u8, N>::from_slice(&bytes[at + 1..]);
        let before = Simd::<u8, N>::from_slice(&bytes[at..]);
        let follows = (block & Simd::splat(0xC0)).simd_eq(Simd::splat(0x80));
        let overlong = (block & Simd::splat(0xFE)).simd_eq(Simd::splat(0xC0));
        let faults = (follows ^ before.simd_ge(Simd::splat(LEAST_LEAD)))
            | (overlong | block.simd_ge(Simd::splat(BEYOND_LATIN1)));
        faults.to_bitmask() == 0
    }
}

#[tactic(auto, using(crate::proofs::PairsLemmas::latin1_whole, crate::proofs::PairsLemmas::latin1_cut))]
#[inline(always)]
fn before_cut_character(bytes: &[u8], at: usize) -> usize
    requires { (0 < at) × (at ≤ length bytes.now) × FitLatin1 bytes.now 0 at }
    ensures { (result ≤ at) × IsUtf8Latin1 (take result bytes.now) }
{
    if bytes[at - 1] >= LEAST_LEAD {
        at - 1
    } else {
        at
    }
}

/// Out of line, since most other text ends before it.
#[inline(never)]
pub fn latin1_blocks(bytes: &[u8], from: usize) -> usize
    requires { (0 < from) × (from ≤ length bytes.now) × FitLatin1 bytes.now 0 from }
    ensures { (result ≤ length bytes.now) × IsUtf8Latin1 (take result bytes.now) }
{
    let test = BytePairs { bytes };
    let by_blocks = skip::<BLOCK, BLOCK, _>(&test, from - 1, bytes.len() - 1);
    let last = skip_to_end::<STRIDE, STRIDE, _>(&test, by_blocks, bytes.len() - 1);
    before_cut_character(bytes, last + 1)
}
