//! ASCII prefixes: their lengths, and copies of them. The rest of `dst` is unchanged.

ghost use Rattle.std.specs.Prelude.{◌≡◌, take, length, IfSome, IfNone};
ghost use Rattle.std.specs.Str.{IsAscii};
ghost use Rattle.encoding_definitions.specs.Ascii.{IsIso2022JpAscii};
ghost use Rattle.encoding_definitions.specs.Prefixes.{IsLongestPrefix, WritesPrefix};
ghost use Rattle.encoding_c.specs.Status.{IsPrefixOf};

use crate::status::EncodingPrefix;
use encoding_text::ascii;

/// Returns the prefix before the byte that was found, or the prefix of `length` bytes if none was.
fn prefix_of_bytes(found: Option<(u8, usize)>, length: usize) -> EncodingPrefix
    ensures if_some { IfSome found (λ it. (result.other ≡ it.0) × (result.length ≡ it.1)) }
    ensures if_none { IfNone found ((result.other ≡ 0) × (result.length ≡ length)) }
{
    match found {
        Some((byte, place)) => EncodingPrefix {
            length: place,
            other: u16::from(byte),
        },
        None => EncodingPrefix { length, other: 0 },
    }
}

/// Returns the length of the longest ASCII prefix, and the first byte after it.
#[unsafe(no_mangle)]
pub extern "C" fn encoding_text_validate_ascii(bytes: &[u8]) -> EncodingPrefix
    ensures { IsPrefixOf bytes.now result }
{
    prefix_of_bytes(ascii::validate_ascii(bytes), bytes.len())
}

/// Returns the length of the longest ASCII prefix, in bytes.
#[unsafe(no_mangle)]
pub extern "C" fn encoding_text_ascii_valid_up_to(bytes: &[u8]) -> usize
    ensures { IsLongestPrefix IsAscii bytes.now result }
{
    ascii::ascii_valid_up_to(bytes)
}

/// Returns the length of the longest ASCII prefix without escape and shift bytes, in bytes.
#[unsafe(no_mangle)]
pub extern "C" fn encoding_text_iso_2022_jp_ascii_valid_up_to(bytes: &[u8]) -> usize
    ensures { IsLongestPrefix IsIso2022JpAscii bytes.now result }
{
    ascii::iso_2022_jp_ascii_valid_up_to(bytes)
}

/// Copies the longest ASCII prefix, up to the shorter of the two lengths.
#[unsafe(no_mangle)]
pub extern "C" fn encoding_text_ascii_to_ascii(src: &[u8], dst: &mut [u8]) -> EncodingPrefix
    ensures found { IsPrefixOf (take (length dst.old) src.now) result }
    ensures copied { WritesPrefix dst.old dst.new result.length (take result.length src.now) }
{
    prefix_of_bytes(ascii::ascii_to_ascii(src, dst), src.len().min(dst.len()))
}

/// Copies the longest ASCII prefix, each byte as a code unit, up to the shorter of the two lengths.
#[unsafe(no_mangle)]
pub extern "C" fn encoding_text_ascii_to_basic_latin(src: &[u8], dst: &mut [u16]) -> EncodingPrefix
    ensures found { IsPrefixOf (take (length dst.old) src.now) result }
    ensures copied { WritesPrefix dst.old dst.new result.length (take result.length src.now) }
{
    prefix_of_bytes(
        ascii::ascii_to_basic_latin(src, dst),
        src.len().min(dst.len()),
    )
}

/// Copies the longest ASCII prefix of code units, each as a byte, up to the shorter of the two lengths.
#[unsafe(no_mangle)]
pub extern "C" fn encoding_text_basic_latin_to_ascii(src: &[u16], dst: &mut [u8]) -> EncodingPrefix
    ensures found { IsPrefixOf (take (length dst.old) src.now) result }
    ensures copied { WritesPrefix dst.old dst.new result.length (take result.length src.now) }
{
    let room = src.len().min(dst.len());
    match ascii::basic_latin_to_ascii(src, dst) {
        Some((unit, place)) => EncodingPrefix {
            length: place,
            other: unit,
        },
        None => EncodingPrefix {
            length: room,
            other: 0,
        },
    }
}
