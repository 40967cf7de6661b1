//! Bytes of UTF-16LE and UTF-16BE to UTF-8 up to what is no character. The values of the rows are those of Python's codecs.

ghost use Rattle.std.specs.Prelude.{◌<◌, ◌≤◌, ◌+◌, length};

use encoding_text::mem::convert_utf16_to_utf8_partial;
use encoding_text::utf_16::{
    ByteOrder, convert_utf16_bytes_to_utf8_up_to_invalid, encode_utf16_bytes,
};

/// "aé€中", "😀", an unpaired surrogate and "b": `"aé€中😀\ud800b".encode("utf-16-le", "surrogatepass")`.
const ROW: [u8; 16] = [
    0x61, 0x00, 0xE9, 0x00, 0xAC, 0x20, 0x2D, 0x4E, 0x3D, 0xD8, 0x00, 0xDE, 0x00, 0xD8, 0x62, 0x00,
];

/// `"aé€中😀".encode()`, and two bytes that stay.
const ROW_UTF8: [u8; 15] = [
    0x61, 0xC3, 0xA9, 0xE2, 0x82, 0xAC, 0xE4, 0xB8, 0xAD, 0xF0, 0x9F, 0x98, 0x80, 0x71, 0x71,
];

/// How much of the row is read into each number of bytes, and how much is written: the sums of `len(c.encode("utf-16-le"))` and
/// `len(c.encode())` over the first characters that fit.
const FITS: [(usize, usize); 15] = [
    (0, 0),
    (2, 1),
    (2, 1),
    (4, 3),
    (4, 3),
    (4, 3),
    (6, 6),
    (6, 6),
    (6, 6),
    (8, 9),
    (8, 9),
    (8, 9),
    (8, 9),
    (12, 13),
    (12, 13),
];

/// Returns whether the row is converted as far as `room` bytes hold it.
fn row_fills(room: usize) -> bool
    requires { room < 15 }
{
    let mut dst = [0x71; 15];
    let (read, written) = FITS[room];
    let call = convert_utf16_bytes_to_utf8_up_to_invalid(
        ByteOrder::LittleEndian,
        &ROW,
        &mut dst[..room],
    );
    if call != (read, written) {
        return false;
    }
    for k in 0..15 {
        let byte = if k < written { ROW_UTF8[k] } else { 0x71 };
        if dst[k] != byte {
            return false;
        }
    }
    true
}

/// Returns whether destinations of all lengths hold what they should of the row.
fn row_holds() -> bool {
    for room in 0..15 {
        if !row_fills(room) {
            return false;
        }
    }
    true
}

#[test]
fn converts_a_row_of_python(rt: HostRuntime) {
    assert!(rt; row_holds());
}

/// "a", a low surrogate and "b", of which the first is read: `"a\ude00b".encode("utf-16-be", "surrogatepass")`.
const LOW: [u8; 6] = [0x00, 0x61, 0xDE, 0x00, 0x00, 0x62];

/// "😀" twice, without the last code unit: `"😀😀".encode("utf-16-be")[:-2]`.
const CUT: [u8; 6] = [0xD8, 0x3D, 0xDE, 0x00, 0xD8, 0x3D];

/// "😀" twice, without the last byte: `"😀😀".encode("utf-16-be")[:-1]`.
const CUT_UNIT: [u8; 7] = [0xD8, 0x3D, 0xDE, 0x00, 0xD8, 0x3D, 0xDE];

/// Returns whether a call in UTF-16BE reads and writes as much.
fn reads_and_writes(src: &[u8], read: usize, written: usize) -> bool {
    let mut dst = [0; 8];
    convert_utf16_bytes_to_utf8_up_to_invalid(ByteOrder::BigEndian, src, &mut dst)
        == (read, written)
}

#[test]
fn stops_where_no_character_is(rt: HostRuntime) {
    assert!(rt; reads_and_writes(&LOW, 2, 1));
    assert!(rt; reads_and_writes(&CUT, 4, 4));
    assert!(rt; reads_and_writes(&CUT_UNIT, 4, 4));
}

/// Returns whether 300 code units, which are all `unit` but a pair in their middle and a surrogate at index `at`, and an odd byte are
/// converted up to the first unpaired surrogate.
fn stops_at(order: ByteOrder, unit: u16, surrogate: u16, at: usize) -> bool
    requires { at < 300 }
{
    let mut text = [unit; 300];
    text[150] = 0xD83D;
    text[151] = 0xDE00;
    let mut units = text;
    units[at] = surrogate;
    let end = if at == 151 { 150 } else { at };
    let mut bytes = [0; 601];
    encode_utf16_bytes(order, &units, &mut bytes);
    let mut expected = [0x71; 900];
    let (_, written) = convert_utf16_to_utf8_partial(&text[..end], &mut expected);
    let mut converted = [0x71; 900];
    convert_utf16_bytes_to_utf8_up_to_invalid(order, &bytes, &mut converted) == (2 * end, written)
        && converted == expected
}

/// Returns whether each kind of surrogate stops each kind of code unit at any index. At the index of a half of the pair, only another kind
/// of surrogate cuts the pair.
fn every_index_stops(order: ByteOrder) -> bool {
    for at in 0..300 {
        if at != 151
            && (!stops_at(order, 0x61, 0xDC00, at) || !stops_at(order, 0x4E2D, 0xDFFF, at))
        {
            return false;
        }
        if at != 150
            && (!stops_at(order, 0xE9, 0xD800, at) || !stops_at(order, 0x20AC, 0xDBFF, at))
        {
            return false;
        }
    }
    true
}

#[test]
fn stops_at_every_index(rt: HostRuntime) {
    assert!(rt; every_index_stops(ByteOrder::LittleEndian));
    assert!(rt; every_index_stops(ByteOrder::BigEndian));
}

/// Returns whether 100 code units are converted as far as `room` bytes hold them: ASCII at the start, and every fifth is `unit`, or a pair
/// if that is a surrogate.
fn fills(order: ByteOrder, unit: u16, room: usize) -> bool
    requires { room ≤ 300 }
{
    let mut units = [0x61; 100];
    for k in 8..19 {
        units[5 * k] = unit;
        if unit == 0xD83D {
            units[5 * k + 1] = 0xDE00;
        }
    }
    let mut bytes = [0; 200];
    encode_utf16_bytes(order, &units, &mut bytes);
    let mut expected = [0x71; 300];
    let (read, written) = convert_utf16_to_utf8_partial(&units, &mut expected[..room]);
    let mut converted = [0x71; 300];
    convert_utf16_bytes_to_utf8_up_to_invalid(order, &bytes, &mut converted[..room])
        == (2 * read, written)
        && converted == expected
}

/// Returns whether destinations of all lengths are filled.
fn all_rooms_are_filled(order: ByteOrder) -> bool {
    for room in 0..301 {
        if !fills(order, 0xE9, room) || !fills(order, 0x4E2D, room) || !fills(order, 0xD83D, room) {
            return false;
        }
    }
    true
}

#[test]
fn fills_destinations_of_all_lengths(rt: HostRuntime) {
    assert!(rt; all_rooms_are_filled(ByteOrder::LittleEndian));
    assert!(rt; all_rooms_are_filled(ByteOrder::BigEndian));
}
