//! windows-1252 to UTF-16 and to UTF-8. ASCII, and the bytes that have the same characters in Latin1, use the calls for
//! these, and the 32 other bytes use a table. Encoding Standard, section 9.1, single-byte decoder.
#![tactic(auto)]

ghost use Rattle.std.specs.Prelude.{◌≡◌, ℕ, ◌*◌, ◌≤◌, List, length, take, map, slice_index, encode_utf8_all};
ghost use Rattle.std.specs.Char.Escape.{encode_utf16};
ghost use Rattle.std.specs.List.{flat_map};
ghost use Rattle.encoding_text.specs.Prefixes.{WritesPrefix};
ghost use Rattle.legacy_example.specs.Windows1252.{scalar_of, AreBytes};

use encoding_runs::laws::{law_sequences, law_utf16_round_trip};
use encoding_text::mem::{
    convert_latin1_to_utf8, convert_latin1_to_utf16, convert_utf16_to_utf8, copy_ascii_to_ascii,
    copy_ascii_to_basic_latin,
};

/// The code units of the bytes from 0x80 to 0x9F. All other bytes are as in Latin1.
const OTHERS: [u16; 32] = [
    0x20AC, 0x0081, 0x201A, 0x0192, 0x201E, 0x2026, 0x2020, 0x2021, 0x02C6, 0x2030, 0x0160, 0x2039,
    0x0152, 0x008D, 0x017D, 0x008F, 0x0090, 0x2018, 0x2019, 0x201C, 0x201D, 0x2022, 0x2013, 0x2014,
    0x02DC, 0x2122, 0x0161, 0x203A, 0x0153, 0x009D, 0x017E, 0x0178,
];

/// Returns the code unit of a byte.
#[tactic(auto, using(crate::proofs::IndexLemmas::scalar_other, crate::proofs::IndexLemmas::scalar_latin1))]
fn code_unit(byte: u8) -> u16
    ensures { result ≡ scalar_of byte }
{
    if byte >= 0x80 && byte < 0xA0 {
        OTHERS[usize::from(byte - 0x80)]
    } else {
        u16::from(byte)
    }
}

/// Returns the length of the longest prefix of bytes that have the same characters in Latin1.
fn latin1_length(bytes: &[u8]) -> usize
    ensures within { result ≤ length bytes.now }
    ensures same { map scalar_of (take result bytes.now) ≡ take result bytes.now }
{
    let mut length = 0;
    while length < bytes.len() && code_unit(bytes[length]) == u16::from(bytes[length]) {
        length += 1;
    }
    length
}

/// Nothing is lost: bytes whose characters have the same UTF-8 are the same bytes.
pub fn law_nothing_is_lost()
    ensures { (bytes others : List ℕ) → AreBytes bytes → AreBytes others
        → encode_utf8_all (map scalar_of bytes) ≡ encode_utf8_all (map scalar_of others)
        → bytes ≡ others }
{
    law_sequences();
}

/// Writes the characters of windows-1252 as UTF-16, one code unit each. `dst` is no shorter than `src`. The rest of
/// `dst` is unchanged.
pub fn windows_1252_to_utf16(src: &[u8], dst: &mut [u16])
    requires dst_length { length src.now ≤ length dst.old }
    ensures written { WritesPrefix dst.old dst.new (length src.now)
        (flat_map encode_utf16 (map scalar_of src.now)) }
{
    let mut at = copy_ascii_to_basic_latin(src, dst);
    loop {
        let run = latin1_length(&src[at..]);
        convert_latin1_to_utf16(&src[at..at + run], &mut dst[at..]);
        at += run;
        if at == src.len() {
            return;
        }
        dst[at] = code_unit(src[at]);
        at += 1;
    }
}

/// Writes the characters of windows-1252 as UTF-8, and returns the number of bytes written. `dst` has at least three
/// bytes for each byte of `src`. The rest of `dst` is unchanged.
pub fn windows_1252_to_utf8(src: &[u8], dst: &mut [u8]) -> usize
    requires dst_length { 3 * length src.now ≤ length dst.old }
    ensures written { WritesPrefix dst.old dst.new result
        (encode_utf8_all (map scalar_of src.now)) }
{
    law_utf16_round_trip();
    let mut read = copy_ascii_to_ascii(src, dst);
    let mut written = read;
    loop {
        let run = latin1_length(&src[read..]);
        written += convert_latin1_to_utf8(&src[read..read + run], &mut dst[written..]);
        read += run;
        if read == src.len() {
            return written;
        }
        written += convert_utf16_to_utf8(&[code_unit(src[read])], &mut dst[written..]);
        read += 1;
    }
}
