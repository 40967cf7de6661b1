//! Sums over the indices of a text: the term of each is decided by the unit there and those after it, and vectors
//! compute the terms of many indices at a time.
ghost use Rattle.std.specs.Prelude.{◌≡◌, ℕ, ◌+◌, ◌*◌, ◌^◌, ◌<◌, ◌≤◌, List, length};
ghost use Rattle.std.specs.Prelude.{drop, slice_index, nat_lt, if◌then◌else◌};
ghost use Rattle.std.specs.Simd.Lanes.{sum_l};
ghost use Rattle.encoding_kernels.specs.Scans.{HasLanes};
ghost use Rattle.encoding_kernels.specs.Lengths.{sum_over_suffixes};

use std::simd::Simd;
use std::simd::prelude::*;

/// The number of lanes of a vector of terms, if the text has that many.
pub(crate) const LANES: usize = 32;

/// Bounds of the lanes of a vector whose last ones count, read from an index on: the greatest term there, else zero.
const BOUNDS: [u8; 128] = [
    0, 0, 0, 0, 0, 0, 0, 0, 0, 0, 0, 0, 0, 0, 0, 0, 0, 0, 0, 0, 0, 0, 0, 0, 0, 0, 0, 0, 0, 0, 0, 0,
    0, 0, 0, 0, 0, 0, 0, 0, 0, 0, 0, 0, 0, 0, 0, 0, 0, 0, 0, 0, 0, 0, 0, 0, 0, 0, 0, 0, 0, 0, 0, 0,
    2, 2, 2, 2, 2, 2, 2, 2, 2, 2, 2, 2, 2, 2, 2, 2, 2, 2, 2, 2, 2, 2, 2, 2, 2, 2, 2, 2, 2, 2, 2, 2,
    2, 2, 2, 2, 2, 2, 2, 2, 2, 2, 2, 2, 2, 2, 2, 2, 2, 2, 2, 2, 2, 2, 2, 2, 2, 2, 2, 2, 2, 2, 2, 2,
];

/// A term, at most 2, for each index of a text.
pub(crate) trait Terms<const N: usize> {
    ghost text: { Self → List ℕ };

    ghost term: { Self → List ℕ → ℕ };

    ghost whole: { Self → ℕ };

    fn len(&self) -> usize
        ensures { result ≡ length (text self.now) };

    /// The end of the indices whose terms vectors compute. After it, a term needs units past the last.
    fn end(&self) -> usize
        ensures { (result ≡ whole self.now) × (length (text self.now) < 2 ^ 63) };

    fn terms(&self, at: usize) -> Simd<u8, N>
        requires { (0 < N) × (at + N ≤ whole self.now) }
        ensures { HasLanes N result (λ k. term self.now (drop (at + k) (text self.now))) };

    fn term_at(&self, at: usize) -> usize
        requires { at < length (text self.now) }
        ensures { result ≡ term self.now (drop at (text self.now)) };

    fn skip(&self, at: usize, end: usize) -> usize
        requires { (at ≤ end) × (end ≤ whole self.now) }
        ensures within { (at ≤ result) × (result ≤ end) }
        ensures zeros { sum_over_suffixes (term self.now)
            (drop result (text self.now)) ≡ sum_over_suffixes (term self.now)
            (drop at (text self.now)) };

    ghost inside: { (s : Self) → whole s ≤ length (text s) };

    ghost few: { (s : Self) (xs : List ℕ) → term s xs ≤ 2 };
}

#[inline(always)]
fn sum_of_lanes<const N: usize>(lanes: Simd<u8, N>) -> usize
    requires { N ≤ 64 }
    ensures { result ≡ sum_l lanes.entry }
{
    usize::from(lanes.cast::<u16>().strict_reduce_sum())
}

/// Also returns the index after the whole vectors.
#[inline(always)]
fn sum_of_vectors<const N: usize, T: Terms<N>>(terms: &T, at: usize, stop: usize) -> (usize, usize)
    requires lanes { (0 < N) × (N ≤ 64) }
    requires within { (at + N ≤ stop) × (stop ≤ at + 127 * N) × (stop ≤ T.whole terms.now) }
    ensures place { (at < result.1) × (result.1 ≤ stop) }
    ensures sum { result.0 + sum_over_suffixes (T.term terms.now)
        (drop result.1 (T.text terms.now)) ≡ sum_over_suffixes (T.term terms.now)
        (drop at (T.text terms.now)) }
{
    let mut sums = Simd::<u8, N>::splat(0);
    let mut place = at;
    while place <= stop - N {
        sums = sums.strict_add(terms.terms(place));
        place += N;
    }
    (sum_of_lanes(sums), place)
}

#[inline(always)]
fn clear_first<const N: usize>(lanes: Simd<u8, N>, skip: usize) -> Simd<u8, N>
    requires within { (skip ≤ N) × (N ≤ 64) }
    requires few { (k : ℕ) → k < N → slice_index lanes k ≤ 2 }
    ensures { HasLanes N result (λ k. if nat_lt k skip then 0 else slice_index lanes.entry k) }
{
    let bounds: &[u8] = &BOUNDS;
    lanes.simd_min(Simd::from_slice(&bounds[64 - skip..]))
}

/// The vector that ends at `end` has lanes before `at`, which don't count.
#[inline(always)]
fn sum_of_last<const N: usize, T: Terms<N>>(terms: &T, at: usize, end: usize) -> usize
    requires lanes { (0 < N) × (N ≤ 64) }
    requires within { (N ≤ end) × (at ≤ end) × (end < at + N) × (end ≤ T.whole terms.now) }
    ensures { result + sum_over_suffixes (T.term terms.now)
        (drop end (T.text terms.now)) ≡ sum_over_suffixes (T.term terms.now)
        (drop at (T.text terms.now)) }
{
    let from = end - N;
    sum_of_lanes(clear_first(terms.terms(from), at - from))
}

/// The lanes are summed after each SPAN indices.
#[inline(always)]
fn sum_by<const N: usize, const SPAN: usize, T: Terms<N>>(
    terms: &T,
    from: usize,
    end: usize,
) -> usize
    requires lanes { (0 < N) × (N ≤ 64) × (N ≤ SPAN) × (SPAN ≤ 127 * N) }
    requires within { (from ≤ end) × (N ≤ end) × (end ≤ T.whole terms.now) }
    requires few { sum_over_suffixes (T.term terms.now) (drop from (T.text terms.now)) < 2 ^ 64 }
    ensures { result + sum_over_suffixes (T.term terms.now)
        (drop end (T.text terms.now)) ≡ sum_over_suffixes (T.term terms.now)
        (drop from (T.text terms.now)) }
{
    let mut sum = 0;
    let mut at = from;
    while end - at >= N {
        let stop = at + (end - at).min(SPAN);
        let (part, next) = sum_of_vectors::<N, T>(terms, at, stop);
        sum += part;
        at = terms.skip(next, end);
    }
    if at == end {
        return sum;
    }
    sum + sum_of_last::<N, T>(terms, at, end)
}

#[tactic(auto, using(std::proofs::lemmas::Grind::common_steps, crate::proofs::SumLemmas::single_terms))]
#[inline(always)]
fn sum_singly<const N: usize, T: Terms<N>>(terms: &T, from: usize) -> usize
    requires within { from ≤ length (T.text terms.now) }
    requires few { sum_over_suffixes (T.term terms.now) (drop from (T.text terms.now)) < 2 ^ 64 }
    ensures { result ≡ sum_over_suffixes (T.term terms.now) (drop from (T.text terms.now)) }
{
    let len = terms.len();
    let mut sum = 0;
    let mut at = from;
    while at < len {
        sum += terms.term_at(at);
        at += 1;
    }
    sum
}

/// `short` has the same terms in M lanes.
#[inline(always)]
fn sum_to<const N: usize, const M: usize, const SPAN: usize, T: Terms<N>, S: Terms<M>>(
    terms: &T,
    short: &S,
    from: usize,
    end: usize,
) -> usize
    requires lanes { (0 < M) × (M ≤ N) × (N ≤ 64) × (N ≤ SPAN) × (SPAN ≤ 127 * M) }
    requires same { (S.text short.now ≡ T.text terms.now) × (S.term short.now ≡ T.term terms.now)
        × (S.whole short.now ≡ T.whole terms.now) }
    requires within { (from ≤ end) × (M ≤ end) × (end ≤ T.whole terms.now) }
    requires few { sum_over_suffixes (T.term terms.now) (drop from (T.text terms.now)) < 2 ^ 64 }
    ensures { result + sum_over_suffixes (T.term terms.now)
        (drop end (T.text terms.now)) ≡ sum_over_suffixes (T.term terms.now)
        (drop from (T.text terms.now)) }
{
    if end < N {
        sum_by::<M, SPAN, S>(short, from, end)
    } else {
        sum_by::<N, SPAN, T>(terms, from, end)
    }
}

/// `short` has the same terms in M lanes.
#[inline(always)]
pub(crate) fn sum_from<const N: usize, const M: usize, const SPAN: usize, T: Terms<N>, S: Terms<M>>(
    terms: &T,
    short: &S,
    from: usize,
) -> usize
    requires lanes { (0 < M) × (M ≤ N) × (N ≤ 64) × (N ≤ SPAN) × (SPAN ≤ 127 * M) }
    requires same { (S.text short.now ≡ T.text terms.now) × (S.term short.now ≡ T.term terms.now)
        × (S.whole short.now ≡ T.whole terms.now) }
    requires within { from ≤ length (T.text terms.now) }
    ensures { result ≡ sum_over_suffixes (T.term terms.now) (drop from (T.text terms.now)) }
{
    let end = terms.end();
    if end < M || from >= end {
        return sum_singly::<N, T>(terms, from);
    }
    sum_to::<N, M, SPAN, T, S>(terms, short, from, end) + sum_singly::<N, T>(terms, end)
}
