//! The longest prefix of bytes that is well-formed UTF-8: one match on the length, and one loop over text and
//! characters. Two bytes show most malformed sequences, and are tested before any block.
ghost use Rattle.std.specs.Prelude.{◌<◌, ◌≤◌, false, length, take};
ghost use Rattle.std.specs.Str.{IsAscii, IsUtf8};
ghost use Rattle.encoding_definitions.specs.Prefixes.{IsLongestPrefix};
ghost use Rattle.encoding_kernels.specs.Scans.{BelowUpTo};

use super::first::{First, character_length};
use crate::ascii::prefixes::{
    ascii_valid_up_to_by_length, is_short, run_len_below, run_len_by_two,
};
use encoding_kernels::lengths::{LEAST_FOR_VECTORS, SHORT, TWO_WIDEST_VECTORS};
use encoding_kernels::simd::width::{ASCII_END, BLOCK, HALF_BLOCK, STRIDE};
use encoding_kernels::utf8::validate::{well_formed_blocks, well_formed_short};

#[tactic(auto, using(std::proofs::lemmas::Grind::common_steps, crate::proofs::WholePrefixesLemmas::ascii_texts))]
#[inline(always)]
fn well_formed_prefix(src: &[u8]) -> usize
    ensures { (result ≤ length src.now) × IsUtf8 (take result src.now) }
{
    if STRIDE <= src.len() && src.len() <= SHORT {
        if is_short(src) {
            return src.len();
        }
        return well_formed_short(src);
    }
    let ascii = ascii_valid_up_to_by_length::<0, false>(src);
    if ascii == src.len() || src.len() < STRIDE {
        return ascii;
    }
    // malformed sequences often cluster, and a block costs more than two bytes
    if First::of_two(&src[ascii..]).is_some() {
        return ascii;
    }
    well_formed_blocks(src, ascii)
}

/// Extends a well-formed prefix of `known` bytes to the longest one. In more than 64 bytes that prefix has to be ASCII:
/// vectors validate what follows it. Then one character and more vectors by turns.
#[inline(never)]
fn valid_after(src: &[u8], known: usize) -> usize
    requires within { known ≤ length src.now }
    requires text { length src.now ≤ 64 → IsUtf8 (take known src.now) }
    requires ascii { 64 < length src.now → BelowUpTo ASCII_END src.now known }
    ensures { IsLongestPrefix IsUtf8 src.now result }
{
    let mut at = known;
    if src.len() > SHORT {
        at = well_formed_blocks(src, known);
    }
    loop {
        let Some(length) = character_length(&src[at..]) else {
            return at;
        };
        at += length;
        at += well_formed_prefix(&src[at..]);
    }
}

/// With `DAMAGED`, first tests two bytes after the ASCII prefix: in damaged text they mostly decide, and the look-ups
/// are saved.
#[inline(always)]
pub(crate) fn valid_up_to_by_vectors<const DAMAGED: bool>(src: &[u8]) -> usize
    requires length { (8 ≤ length src.now) × (length src.now ≤ 64) }
    requires other { IsAscii src.now → ⊥ }
    ensures { IsLongestPrefix IsUtf8 src.now result }
{
    if DAMAGED && src.len() >= STRIDE && src[0] < ASCII_END {
        let ascii = if src.len() >= HALF_BLOCK {
            run_len_by_two::<HALF_BLOCK>(src, ASCII_END)
        } else {
            run_len_by_two::<STRIDE>(src, ASCII_END)
        };
        if First::of_two(&src[ascii..]).is_some() {
            return ascii;
        }
    }
    let well_formed = well_formed_short(src);
    if well_formed == src.len() {
        return well_formed;
    }
    if src[well_formed] >= ASCII_END && First::of_two(&src[well_formed..]).is_some() {
        return well_formed;
    }
    valid_after(src, well_formed)
}

/// Between malformed sequences there is often some ASCII, which one mask shows.
#[inline(never)]
fn long_valid_up_to(src: &[u8]) -> usize
    requires { 64 < length src.now }
    ensures { IsLongestPrefix IsUtf8 src.now result }
{
    let first = run_len_below::<BLOCK>(src, 0, ASCII_END);
    if first != BLOCK {
        if First::of_two(&src[first..]).is_some() {
            return first;
        }
        return valid_after(src, first);
    }
    if src.len() <= TWO_WIDEST_VECTORS {
        if is_short(src) {
            return src.len();
        }
        return valid_after(src, BLOCK);
    }
    let ascii = ascii_valid_up_to_by_length::<BLOCK, false>(src);
    if ascii == src.len() {
        return ascii;
    }
    if First::of_two(&src[ascii..]).is_some() {
        return ascii;
    }
    valid_after(src, ascii)
}

/// Expects malformed sequences. Inline, so that its speed doesn't depend on the addresses of two functions.
#[inline(always)]
pub(crate) fn valid_beyond_ascii(src: &[u8]) -> usize
    requires other { (length src.now ≤ 64) × IsAscii src.now → ⊥ }
    ensures { IsLongestPrefix IsUtf8 src.now result }
{
    if src.len() > SHORT {
        return long_valid_up_to(src);
    }
    // most texts are no shorter than a stride: one test shows that
    if src.len() < STRIDE && src.len() < LEAST_FOR_VECTORS {
        return valid_after(src, 0);
    }
    valid_up_to_by_vectors::<true>(src)
}

/// Returns the length in bytes of the longest prefix of `src` that is well-formed UTF-8: the index of the first byte
/// that is in no character, or the length of `src`.
///
/// Unicode Standard, section 3.9, UTF-8: the bytes of a character match one of the nine rows of Table 3-7, Well-Formed
/// UTF-8 Byte Sequences. The first byte determines the length and which second bytes are allowed. So no byte of an
/// overlong form, of an encoded surrogate or above U+10FFFF is in the prefix.
pub fn utf8_valid_up_to(src: &[u8]) -> usize
    ensures { IsLongestPrefix IsUtf8 src.now result }
{
    if src.len() > SHORT {
        return long_valid_up_to(src);
    }
    if is_short(src) {
        return src.len();
    }
    if src.len() >= LEAST_FOR_VECTORS {
        return valid_up_to_by_vectors::<false>(src);
    }
    valid_after(src, 0)
}
