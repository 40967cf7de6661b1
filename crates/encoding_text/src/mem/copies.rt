//! Copies of the ASCII prefix. A copy leaves the rest of `dst` unchanged.

ghost use Rattle.std.specs.Prelude.{◌≤◌, take, length};
ghost use Rattle.std.specs.Str.{IsAscii};
ghost use Rattle.encoding_definitions.specs.Prefixes.{IsLongestPrefix, WritesPrefix};

use crate::ascii;

/// Copies the longest ASCII prefix and returns its length. `dst` is at least as long as `src`.
pub fn copy_ascii_to_ascii(src: &[u8], dst: &mut [u8]) -> usize
    requires dst_length { length src.now ≤ length dst.old }
    ensures prefix { IsLongestPrefix IsAscii src.now result }
    ensures copied { WritesPrefix dst.old dst.new result (take result src.now) }
{
    match ascii::ascii_to_ascii(src, dst) {
        Some((_, place)) => place,
        None => src.len(),
    }
}

/// Copies the longest ASCII prefix, each byte as a UTF-16 code unit, and returns its length. `dst` is at least as long
/// as `src`.
pub fn copy_ascii_to_basic_latin(src: &[u8], dst: &mut [u16]) -> usize
    requires dst_length { length src.now ≤ length dst.old }
    ensures prefix { IsLongestPrefix IsAscii src.now result }
    ensures copied { WritesPrefix dst.old dst.new result (take result src.now) }
{
    match ascii::ascii_to_basic_latin(src, dst) {
        Some((_, place)) => place,
        None => src.len(),
    }
}

/// Copies the longest ASCII prefix of UTF-16 code units, each as a byte, and returns its length. `dst` is at least as
/// long as `src`.
#[tactic(auto, using(crate::proofs::WholePrefixesLemmas::copied_prefixes))]
pub fn copy_basic_latin_to_ascii(src: &[u16], dst: &mut [u8]) -> usize
    requires dst_length { length src.now ≤ length dst.old }
    ensures prefix { IsLongestPrefix IsAscii src.now result }
    ensures copied { WritesPrefix dst.old dst.new result (take result src.now) }
{
    match ascii::basic_latin_to_ascii(src, dst) {
        Some((_, place)) => place,
        None => src.len(),
    }
}
