//! UTF-16BE and UTF-16LE: the examples of the Unicode Standard, section 3.10, and values of Python's codecs.

use encoding_text::utf_16::{
    ByteOrder, copy_utf16_bytes_to_ascii, decode_utf16_bytes, encode_utf16_bytes,
};

/// The code units of the examples D96 and D97.
const UNITS: [u16; 5] = [0x004D, 0x0430, 0x4E8C, 0xD800, 0xDF02];

/// The example D96.
const BIG_ENDIAN: [u8; 10] = [0x00, 0x4D, 0x04, 0x30, 0x4E, 0x8C, 0xD8, 0x00, 0xDF, 0x02];

/// The example D97.
const LITTLE_ENDIAN: [u8; 10] = [0x4D, 0x00, 0x30, 0x04, 0x8C, 0x4E, 0x00, 0xD8, 0x02, 0xDF];

/// Returns whether the bytes and the code units of the examples are each other's.
fn are_one_text(order: ByteOrder, bytes: &[u8; 10]) -> bool {
    let mut units = [0; 5];
    let mut encoded = [0; 10];
    decode_utf16_bytes(order, bytes, &mut units) == (10, 5)
        && units == UNITS
        && encode_utf16_bytes(order, &UNITS, &mut encoded) == (5, 10)
        && encoded == *bytes
}

#[test]
fn examples_of_the_standard_hold(rt: HostRuntime) {
    assert!(rt; are_one_text(ByteOrder::BigEndian, &BIG_ENDIAN));
    assert!(rt; are_one_text(ByteOrder::LittleEndian, &LITTLE_ENDIAN));
}

/// Returns whether a byte order mark and an unpaired surrogate are code units like others: `FF FE 00 D8` in UTF-16LE.
fn all_units_are_kept() -> bool {
    let mut units = [0; 2];
    decode_utf16_bytes(
        ByteOrder::LittleEndian,
        &[0xFF, 0xFE, 0x00, 0xD8],
        &mut units,
    ) == (4, 2)
        && units == [0xFEFF, 0xD800]
        && decode_utf16_bytes(ByteOrder::BigEndian, &[0xFE, 0xFF, 0xDC, 0x00], &mut units) == (4, 2)
        && units == [0xFEFF, 0xDC00]
}

#[test]
fn keeps_marks_and_unpaired_surrogates(rt: HostRuntime) {
    assert!(rt; all_units_are_kept());
}

/// Returns whether an odd byte is not read, and the rest of the destination is unchanged.
fn whole_units_are_decoded() -> bool {
    let mut units = [0x71; 3];
    decode_utf16_bytes(ByteOrder::LittleEndian, &[0xE4, 0x00, 0x62], &mut units) == (2, 1)
        && units == [0xE4, 0x71, 0x71]
        && decode_utf16_bytes(ByteOrder::BigEndian, &[0x20], &mut units) == (0, 0)
        && units == [0xE4, 0x71, 0x71]
        && decode_utf16_bytes(ByteOrder::BigEndian, &BIG_ENDIAN, &mut units) == (6, 3)
        && units == [0x004D, 0x0430, 0x4E8C]
}

/// Returns whether no half of a code unit is written, and the rest of the destination is unchanged.
fn whole_units_are_encoded() -> bool {
    let mut bytes = [0x71; 3];
    encode_utf16_bytes(ByteOrder::LittleEndian, &UNITS, &mut bytes) == (1, 2)
        && bytes == [0x4D, 0x00, 0x71]
        && encode_utf16_bytes(ByteOrder::BigEndian, &[], &mut bytes) == (0, 0)
        && bytes == [0x4D, 0x00, 0x71]
        && encode_utf16_bytes(ByteOrder::BigEndian, &[0x20AC], &mut bytes) == (1, 2)
        && bytes == [0x20, 0xAC, 0x71]
}

#[test]
fn cuts_no_code_unit(rt: HostRuntime) {
    assert!(rt; whole_units_are_decoded());
    assert!(rt; whole_units_are_encoded());
}

/// Returns whether ASCII is copied up to another code unit, here the 67th, and the rest of the destination is
/// unchanged.
fn ascii_is_copied(order: ByteOrder) -> bool {
    let mut units = [0x61; 70];
    units[66] = 0xE4;
    let mut bytes = [0; 140];
    let mut copied = [0x71; 70];
    let mut expected = [0x61; 70];
    expected[66..].copy_from_slice(&[0x71; 4]);
    encode_utf16_bytes(order, &units, &mut bytes) == (70, 140)
        && copy_utf16_bytes_to_ascii(order, &bytes, &mut copied) == 66
        && copied == expected
}

/// Returns whether ASCII is copied up to the end of a shorter destination, and up to an odd byte: `61 00 62 00 63 00
/// 64`.
fn fitting_ascii_is_copied() -> bool {
    let bytes = [0x61, 0x00, 0x62, 0x00, 0x63, 0x00, 0x64];
    let mut two = [0; 2];
    let mut four = [0x71; 4];
    copy_utf16_bytes_to_ascii(ByteOrder::LittleEndian, &bytes, &mut two) == 2
        && two == [0x61, 0x62]
        && copy_utf16_bytes_to_ascii(ByteOrder::LittleEndian, &bytes, &mut four) == 3
        && four == [0x61, 0x62, 0x63, 0x71]
        && copy_utf16_bytes_to_ascii(ByteOrder::BigEndian, &bytes, &mut four) == 0
        && four == [0x61, 0x62, 0x63, 0x71]
}

#[test]
fn copies_ascii_up_to_other_units(rt: HostRuntime) {
    assert!(rt; ascii_is_copied(ByteOrder::LittleEndian));
    assert!(rt; ascii_is_copied(ByteOrder::BigEndian));
    assert!(rt; fitting_ascii_is_copied());
}
