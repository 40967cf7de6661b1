//! Checks of text for ASCII and Latin1, and the lengths of such prefixes. Text that fails often does so at its start,
//! which is tested before any block.

ghost use Rattle.std.specs.Prelude.{◌<◌, ◌≤◌, ◌↔◌, length, take, IsTrue};
ghost use Rattle.std.specs.Str.{IsAscii};
ghost use Rattle.encoding_definitions.specs.Prefixes.{IsLongestPrefix};
ghost use Rattle.encoding_definitions.specs.Latin1.{IsLatin1, IsUtf8Latin1};
ghost use Rattle.encoding_kernels.specs.Scans.{BelowUpTo};

use crate::ascii::ascii_valid_up_to;
use crate::ascii::prefixes::is_short;
use encoding_kernels::latin1::validate::{BEYOND_LATIN1, latin1_blocks};
use encoding_kernels::scalar::is_continuation;
use encoding_kernels::simd::scan::{
    are_256_below, are_bytes_below, prefix_after_stride, prefix_len_below, run_len_below,
};
use encoding_kernels::simd::units::are_units_below;
use encoding_kernels::simd::width::{
    ASCII_END, BASIC_LATIN_END, BLOCK, FOUR, FOUR_BLOCKS, SIXTEEN, STRIDE, UNIT_BLOCK,
};

/// The least UTF-16 code unit that isn't Latin1.
pub(super) const LATIN1_END: u16 = 0x100;

/// The first byte of U+0080 to U+00BF; that of U+00C0 to U+00FF is one more.
const LATIN1_LEAD: u8 = 0xC2;

/// Returns whether each byte is ASCII.
pub fn is_ascii(buffer: &[u8]) -> bool
    ensures { IsTrue result ↔ IsAscii buffer.now }
{
    let (strides, _) = buffer.as_chunks::<STRIDE>();
    if let Some(first) = strides.first() {
        if !are_bytes_below::<STRIDE>(first, 0, ASCII_END) {
            return false;
        }
    }
    let (sixteens, _) = strides.as_chunks::<SIXTEEN>();
    let mut at = 0;
    for sixteen in sixteens {
        if !are_256_below(sixteen.as_flattened(), 0, ASCII_END) {
            return false;
        }
        at += FOUR_BLOCKS;
    }
    let (fours, _) = strides.as_chunks::<FOUR>();
    for i in at / BLOCK..fours.len() {
        if !are_bytes_below::<BLOCK>(fours[i].as_flattened(), 0, ASCII_END) {
            return false;
        }
        at += BLOCK;
    }
    for i in at / STRIDE..strides.len() {
        if !are_bytes_below::<STRIDE>(&strides[i], 0, ASCII_END) {
            return false;
        }
        at += STRIDE;
    }
    for i in at..buffer.len() {
        if buffer[i] >= ASCII_END {
            return false;
        }
    }
    true
}

/// Returns whether each UTF-16 code unit is ASCII.
pub fn is_basic_latin(buffer: &[u16]) -> bool
    ensures { IsTrue result ↔ IsAscii buffer.now }
{
    let (strides, _) = buffer.as_chunks::<STRIDE>();
    if let Some(first) = strides.first() {
        if !are_units_below::<STRIDE>(first, 0, BASIC_LATIN_END) {
            return false;
        }
    }
    let (fours, _) = strides.as_chunks::<FOUR>();
    let mut at = 0;
    for four in fours {
        if !are_units_below::<UNIT_BLOCK>(four.as_flattened(), 0, BASIC_LATIN_END) {
            return false;
        }
        at += UNIT_BLOCK;
    }
    for i in at / STRIDE..strides.len() {
        if !are_units_below::<STRIDE>(&strides[i], 0, BASIC_LATIN_END) {
            return false;
        }
        at += STRIDE;
    }
    for i in at..buffer.len() {
        if buffer[i] >= BASIC_LATIN_END {
            return false;
        }
    }
    true
}

/// Returns whether the bytes are well-formed UTF-8 whose scalar values are each up to U+00FF.
#[tactic(auto, using(crate::proofs::WholePrefixesLemmas::whole_by_length))]
pub fn is_utf8_latin1(buffer: &[u8]) -> bool
    ensures { IsTrue result ↔ IsUtf8Latin1 buffer.now }
{
    utf8_latin1_up_to(buffer) == buffer.len()
}

/// Returns whether the scalar values of the text are each up to U+00FF.
pub fn is_str_latin1(buffer: &str) -> bool
    ensures { IsTrue result ↔ IsUtf8Latin1 buffer.now }
{
    str_latin1_up_to(buffer) == buffer.len()
}

/// Returns whether each UTF-16 code unit is up to 0x00FF.
pub fn is_utf16_latin1(buffer: &[u16]) -> bool
    ensures { IsTrue result ↔ IsLatin1 buffer.now }
{
    let (strides, _) = buffer.as_chunks::<STRIDE>();
    if let Some(first) = strides.first() {
        if !are_units_below::<STRIDE>(first, 0, LATIN1_END) {
            return false;
        }
    }
    let (fours, _) = strides.as_chunks::<FOUR>();
    let mut at = 0;
    for four in fours {
        if !are_units_below::<UNIT_BLOCK>(four.as_flattened(), 0, LATIN1_END) {
            return false;
        }
        at += UNIT_BLOCK;
    }
    for i in at / STRIDE..strides.len() {
        if !are_units_below::<STRIDE>(&strides[i], 0, LATIN1_END) {
            return false;
        }
        at += STRIDE;
    }
    // without a return, so that the compiler tests several units at once
    let mut is_latin1 = true;
    for i in at..buffer.len() {
        is_latin1 &= buffer[i] < LATIN1_END;
    }
    is_latin1
}

/// Returns the length of the longest prefix that is the UTF-8 of scalar values up to U+00FF.
#[inline]
pub fn utf8_latin1_up_to(buffer: &[u8]) -> usize
    ensures { IsLongestPrefix IsUtf8Latin1 buffer.now result }
{
    if buffer.len() < STRIDE {
        if is_short(buffer) {
            return buffer.len();
        }
        return longest_latin1(buffer, 0);
    }
    let run = run_len_below::<STRIDE>(buffer, 0, ASCII_END);
    // most text that isn't Latin1 ends here
    if run < STRIDE && buffer[run] >= BEYOND_LATIN1 {
        return run;
    }
    longest_latin1(buffer, run)
}

/// Searches on only if nothing is known, or a whole stride.
#[inline(always)]
fn ascii_prefix_len(bytes: &[u8], from: usize) -> usize
    requires { (from ≤ length bytes.now) × BelowUpTo 0x80 bytes.now from }
    ensures within { result ≤ length bytes.now }
    ensures below { BelowUpTo 0x80 bytes.now result }
{
    match from {
        0 => ascii_valid_up_to(bytes),
        STRIDE => prefix_after_stride(bytes, ASCII_END),
        _ => from,
    }
}

#[tactic(auto, using(encoding_kernels::proofs::PairsLemmas::ascii_latin1))]
#[inline(always)]
fn latin1_prefix_len(bytes: &[u8], from: usize) -> usize
    requires { (from ≤ length bytes.now) × BelowUpTo 0x80 bytes.now from }
    ensures { (result ≤ length bytes.now) × IsUtf8Latin1 (take result bytes.now) }
{
    let prefix = ascii_prefix_len(bytes, from);
    if prefix == bytes.len() {
        return prefix;
    }
    if !is_latin1_lead(bytes[prefix]) {
        return prefix;
    }
    latin1_blocks(bytes, prefix + 1)
}

fn is_latin1_lead(byte: u8) -> bool
    ensures { IsTrue result → (0xC2 ≤ byte) × (byte < 0xC4) }
{
    byte == 0xC2 || byte == 0xC3
}

#[inline(never)]
fn longest_latin1(buffer: &[u8], from: usize) -> usize
    requires { (from ≤ length buffer.now) × BelowUpTo 0x80 buffer.now from }
    ensures { IsLongestPrefix IsUtf8Latin1 buffer.now result }
{
    let mut read = latin1_prefix_len(buffer, from);
    while read < buffer.len() {
        let byte = buffer[read];
        if byte < 0x80 {
            read += 1;
            continue;
        }
        if byte < LATIN1_LEAD || byte >= BEYOND_LATIN1 || read + 1 == buffer.len() {
            return read;
        }
        let next = buffer[read + 1];
        if !is_continuation(next) {
            return read;
        }
        read += 2;
    }
    read
}

/// Returns the length in bytes of the longest prefix of the text whose scalar values are each up to U+00FF.
pub fn str_latin1_up_to(buffer: &str) -> usize
    ensures { IsLongestPrefix IsUtf8Latin1 buffer.now result }
{
    let bytes = buffer.as_bytes();
    prefix_len_below(bytes, BEYOND_LATIN1)
}
