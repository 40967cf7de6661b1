//! ASCII and Latin1: prefixes, copies, checks and conversions. The checks for Latin1 also at each length, and with each
//! number of other units.

use crate::assertions::assert_rows;
use encoding_text::ascii::{
    ASCII_MASK, ascii_to_ascii, ascii_to_basic_latin, ascii_valid_up_to, basic_latin_to_ascii,
    iso_2022_jp_ascii_valid_up_to, validate_ascii,
};
use encoding_text::mem::{
    Latin1Bidi, check_str_for_latin1_and_bidi, check_utf8_for_latin1_and_bidi,
    check_utf16_for_latin1_and_bidi, convert_latin1_to_utf8, convert_latin1_to_utf8_partial,
    convert_latin1_to_utf16, convert_utf8_to_latin1, convert_utf8_to_latin1_lossy,
    convert_utf16_to_latin1_lossy, copy_ascii_to_ascii, copy_ascii_to_basic_latin,
    copy_basic_latin_to_ascii, is_ascii, is_basic_latin, is_str_latin1, is_utf8_latin1,
    is_utf16_latin1, latin1_length_from_utf8, str_latin1_up_to, utf8_latin1_up_to,
    utf8_length_from_latin1,
};
use std::alloc::Global;
use std::test::Fail;
use test_support::rows::{Row, Table};
use test_support::texts::{Unit, are_all, are_written};

#[test]
fn masks_each_byte(rt: HostRuntime) {
    assert!(rt; ASCII_MASK == 0x8080_8080_8080_8080);
}

/// Returns whether prefixes end before the first byte from 0x80 on.
fn prefixes_end() -> bool {
    ascii_valid_up_to(b"") == 0
        && ascii_valid_up_to(b"ab") == 2
        && ascii_valid_up_to(&[0x61, 0x80]) == 1
        && ascii_valid_up_to(&[0xFF, 0x61]) == 0
        && validate_ascii(b"ab") == None
        && validate_ascii(&[0x61, 0x80, 0xFF]) == Some((0x80, 1))
}

#[test]
fn finds_the_ascii_prefix(rt: HostRuntime) {
    assert!(rt; prefixes_end());
}

/// Returns whether prefixes of ISO-2022-JP also end before an escape byte and the two shift bytes.
fn iso_2022_jp_prefixes_end() -> bool {
    iso_2022_jp_ascii_valid_up_to(&[0x61, 0x1B, 0x62]) == 1
        && iso_2022_jp_ascii_valid_up_to(&[0x61, 0x62]) == 2
        && iso_2022_jp_ascii_valid_up_to(&[0x0E]) == 0
        && iso_2022_jp_ascii_valid_up_to(&[0x61, 0x0F]) == 1
        && iso_2022_jp_ascii_valid_up_to(&[0x80]) == 0
}

#[test]
fn finds_the_prefix_of_iso_2022_jp(rt: HostRuntime) {
    assert!(rt; iso_2022_jp_prefixes_end());
}

/// Returns whether each copy stops at the first unit that isn't ASCII, and the rest is unchanged.
fn prefixes_are_copied() -> bool {
    let mut bytes = [0; 3];
    let mut units = [0; 3];
    let mut narrow = [0; 3];
    copy_ascii_to_ascii(&[0x61, 0x62, 0xE4], &mut bytes) == 2
        && bytes == [0x61, 0x62, 0]
        && copy_ascii_to_basic_latin(&[0x61, 0x62, 0xE4], &mut units) == 2
        && units == [0x61, 0x62, 0]
        && copy_basic_latin_to_ascii(&[0x61, 0x0162, 0x63], &mut narrow) == 1
        && narrow == [0x61, 0, 0]
}

#[test]
fn copies_the_prefix(rt: HostRuntime) {
    assert!(rt; prefixes_are_copied());
}

/// Returns whether the copies end at the shorter of the two lengths.
fn shorter_lengths_are_copied() -> bool {
    let mut bytes = [0; 2];
    let mut units = [0; 4];
    ascii_to_ascii(&[0x61, 0x62, 0xE4], &mut bytes) == None
        && bytes == [0x61, 0x62]
        && ascii_to_basic_latin(&[0x61, 0x62], &mut units) == None
        && units == [0x61, 0x62, 0, 0]
}

#[test]
fn copies_what_there_is_room_for(rt: HostRuntime) {
    assert!(rt; shorter_lengths_are_copied());
}

/// Returns 0x40, 0x41 and so on, with 0xAA at index `i`.
fn letters_with_other_at(i: usize) -> [u8; 32] {
    let mut src = [0u8; 32];
    for j in 0..32 {
        src[j] = if i == j { 0xAA } else { 0x40 + j as u8 };
    }
    src
}

/// Returns the bytes as code units.
fn widened(src: &[u8; 32]) -> [u16; 32] {
    let mut wide = [0u16; 32];
    for j in 0..32 {
        wide[j] = u16::from(src[j]);
    }
    wide
}

/// Returns whether the items before an index are those of the source, and all others are zero.
fn is_prefix_of<U: Unit>(items: &[U], src: &[U], end: usize, zero: U) -> bool {
    match (items.get(..end), items.get(end..)) {
        (Some(first), Some(others)) => src.get(..end) == Some(first) && are_all(others, zero),
        _ => false,
    }
}

/// Returns whether each scan and copy stops at this index.
fn stops_at(i: usize) -> bool {
    let src = letters_with_other_at(i);
    let wide = widened(&src);
    let mut bytes = [0u8; 32];
    let mut units = [0u16; 32];
    let mut packed = [0u8; 32];
    ascii_to_ascii(&src, &mut bytes) == Some((0xAA, i))
        && is_prefix_of(&bytes, &src, i, 0)
        && ascii_to_basic_latin(&src, &mut units) == Some((0xAA, i))
        && is_prefix_of(&units, &wide, i, 0)
        && basic_latin_to_ascii(&wide, &mut packed) == Some((0xAA, i))
        && is_prefix_of(&packed, &src, i, 0)
}

#[test]
fn scans_stop_at_each_place(rt: HostRuntime) {
    for i in 0..32 {
        assert!(rt; stops_at(i), "{i}");
    }
}

/// Returns whether the checks distinguish the units from i to 0x7F, with 0xA0 for those before j, from ASCII.
fn are_distinguished(i: usize, j: usize) -> bool {
    let mut bytes = [0u8; 128];
    let mut units = [0u16; 128];
    for at in 0..128 {
        let byte = if i <= at && at < j { 0xA0 } else { at as u8 };
        bytes[at] = byte;
        units[at] = u16::from(byte);
    }
    i <= 128 && is_ascii(&bytes[i..]) == (j <= i) && is_basic_latin(&units[i..]) == (j <= i)
}

/// Returns whether they do for the first one, two and so on.
fn are_distinguished_from(i: usize) -> bool {
    for j in i..129 {
        if !are_distinguished(i, j) {
            return false;
        }
    }
    true
}

/// The units from i to 0x7F, with 0xA0 for the first one, two and so on.
#[test]
fn checks_at_all_lengths(rt: HostRuntime) {
    for i in 0..128 {
        assert!(rt; are_distinguished_from(i), "{i}");
    }
}

/// Bytes, and the length of their prefix that is the UTF-8 of Latin1 text; or bytes that are no text, so not Latin1.
const PREFIXES: &str = "\
| 0
61 C3 FF | 1
C3 A4 C4 80 | 2
61 C3 BF | 3
C3 | ill-formed
61 C3 | ill-formed
FF | ill-formed
61 FF | ill-formed
C3 FF | ill-formed
61 C3 FF | ill-formed";

#[derive(Drop)]
struct Prefixes;

impl Table for Prefixes {
    const ROWS: &'static str = PREFIXES;

    const COUNT: usize = 10;

    fn holds(&mut self, row: &mut Row<'_>) -> bool {
        let bytes = row.bytes();
        let bytes = bytes.as_slice();
        match row.rest().trim() {
            "ill-formed" => !is_utf8_latin1(bytes),
            _ => utf8_latin1_up_to(bytes) == row.number(),
        }
    }
}

/// Returns whether the checks of texts and of code units find the same.
fn latin1_prefixes_of_texts_end() -> bool {
    str_latin1_up_to("aäĀ") == 3
        && str_latin1_up_to("aÿ") == 3
        && is_str_latin1("aÿ")
        && !is_str_latin1("aäĀ")
        && is_utf16_latin1(&[0x61, 0xFF])
        && !is_utf16_latin1(&[0x61, 0x0100])
}

#[test]
fn finds_the_latin1_prefix(rt: HostRuntime) {
    assert_rows(&rt, &mut Prefixes);
    assert!(rt; latin1_prefixes_of_texts_end());
}

/// Returns whether only whole characters are written.
fn what_fits_is_converted() -> bool {
    let mut two = [0x00, 0x02];
    let mut one = [0x71];
    convert_latin1_to_utf8_partial(&[0x61, 0xFF], &mut two) == (1, 1)
        && two == [0x61, 0x02]
        && convert_latin1_to_utf8_partial(&[0xE4], &mut one) == (0, 0)
        && one == [0x71]
}

#[test]
fn converts_what_fits(rt: HostRuntime) {
    assert!(rt; what_fits_is_converted());
}

/// Returns whether the low eight bits of each code unit are written, and nothing after them.
fn low_bits_are_kept() -> bool {
    let mut three = [0x71; 3];
    convert_utf16_to_latin1_lossy(&[0x0100, 0x01E4], &mut three);
    let mut sixteen = [0x71; 16];
    convert_utf16_to_latin1_lossy(&[0x0100], &mut sixteen);
    three == [0x00, 0xE4, 0x71] && are_written(&[0x00], &sixteen, 1)
}

#[test]
fn keeps_the_low_bits_of_units(rt: HostRuntime) {
    assert!(rt; low_bits_are_kept());
}

/// Returns the bytes from 0x00 to 0xFF.
fn latin1() -> [u8; 256] {
    let mut bytes = [0; 256];
    for c in 0..256 {
        bytes[c] = c as u8;
    }
    bytes
}

/// Returns the UTF-8 of U+0000 to U+00FF, by the table of UTF-8.
fn latin1_in_utf8() -> [u8; 384] {
    let mut utf8 = [0; 384];
    for c in 0..128 {
        utf8[c] = c as u8;
    }
    for c in 128..256 {
        utf8[2 * c - 128] = 0xC0 + c as u8 / 64;
        utf8[2 * c - 127] = 0x80 + c as u8 % 64;
    }
    utf8
}

/// Returns whether the code units are 0, 1, 2 and so on.
fn are_numbered(units: &[u16; 256]) -> bool {
    for c in 0..256 {
        if usize::from(units[c]) != c {
            return false;
        }
    }
    true
}

#[test]
fn converts_each_byte_to_a_unit_and_back(rt: HostRuntime) {
    let mut units = [0x71u16; 256];
    convert_latin1_to_utf16(&latin1(), &mut units);
    assert!(rt; are_numbered(&units));
    let mut back = [0x71u8; 256];
    convert_utf16_to_latin1_lossy(&units, &mut back);
    assert!(rt; back == latin1());
}

#[test]
fn converts_each_byte_to_utf8(rt: HostRuntime) {
    let mut text = [0x71u8; 512];
    let written = convert_latin1_to_utf8(&latin1(), &mut text);
    assert!(rt; written == 384 && utf8_length_from_latin1(&latin1()) == 384);
    assert!(rt; are_written(&latin1_in_utf8(), &text, written));
}

#[test]
fn converts_each_byte_back(rt: HostRuntime) {
    let utf8 = latin1_in_utf8();
    assert!(rt; is_utf8_latin1(&utf8));
    let mut back = [0x71u8; 384];
    let written = convert_utf8_to_latin1_lossy(&utf8, &mut back);
    assert!(rt; written == 256 && are_written(&latin1(), &back, written));
}

/// Into a destination that ends with the text.
#[test]
fn converts_each_byte_back_into_its_room(rt: HostRuntime) {
    let utf8 = latin1_in_utf8();
    assert!(rt; is_utf8_latin1(&utf8) && latin1_length_from_utf8(&utf8) <= 256);
    let mut back = [0x71u8; 256];
    let written = convert_utf8_to_latin1(&utf8, &mut back);
    assert!(rt; written == 256 && back == latin1());
}

/// Returns the text whose characters are the code units.
fn text_from_units(alloc: Global, units: &[u16]) -> Result<String, Fail> {
    let mut text = String::new(alloc);
    for unit in units {
        text.push(char::from_u32(u32::from(*unit)).ok_or("a surrogate")?)?;
    }
    Ok(text)
}

/// Returns whether all checks of the code units, and of their text, have these results.
fn units_are(alloc: Global, units: &[u16], latin1: bool, class: Latin1Bidi) -> Result<bool, Fail> {
    let text = text_from_units(alloc, units)?;
    Ok(
        is_utf16_latin1(units) == latin1
            && is_str_latin1(&text) == latin1
            && is_utf8_latin1(text.as_bytes()) == latin1
            && check_utf16_for_latin1_and_bidi(units) == class
            && check_str_for_latin1_and_bidi(&text) == class
            && check_utf8_for_latin1_and_bidi(text.as_bytes()) == class,
    )
}

/// Returns whether the units from `start` to 0xFF are Latin1, and no more once the first one, two and so on are 0x100,
/// 0x101 and so on.
fn classes_change(alloc: Global, start: usize) -> Result<bool, Fail> {
    let mut units = [0u16; 256];
    for i in 0..256 {
        units[i] = i as u16;
    }
    let Some(some) = units.get_mut(start..) else {
        return Ok(false);
    };
    let mut holds = units_are(alloc, some, true, Latin1Bidi::Latin1)?;
    for i in 0..some.len() {
        some[i] = 0x100 + (i & 0xFF) as u16;
        holds = holds && units_are(alloc, some, false, Latin1Bidi::LeftToRight)?;
    }
    Ok(holds)
}

#[test]
fn at_all_lengths(rt: HostRuntime) -> Result<(), Fail> {
    for start in 0..256 {
        assert!(rt; classes_change(rt.alloc(), start)?, "{start}");
    }
    Ok(())
}
