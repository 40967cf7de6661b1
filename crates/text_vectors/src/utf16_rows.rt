//! UTF-16 to UTF-8 without an encoder: whole, bounded, and the two halves of the bounded conversion. And conversions
//! from UTF-8 to UTF-16.

use crate::assertions::assert_rows;
use encoding_text::mem::{
    convert_utf8_to_utf16, convert_utf8_to_utf16_without_replacement, convert_utf16_to_utf8,
    convert_utf16_to_utf8_partial,
};
use encoding_text::utf_8::{
    convert_utf8_to_utf16_up_to_invalid, convert_utf16_to_utf8_partial_inner,
    convert_utf16_to_utf8_partial_tail,
};
use test_support::mixed_text::{BYTES, UNITS};
use test_support::rows::{Row, Table};
use test_support::texts::are_written;

#[test]
fn converts_a_text_in_two(rt: HostRuntime) {
    let mut first = [0x71; 24];
    let answer = convert_utf16_to_utf8_partial(&UNITS, &mut first);
    assert!(rt; answer == (21, 21) && are_written(&BYTES[..21], &first, 21));
    let mut second = [0x71; 73];
    let written = convert_utf16_to_utf8(&UNITS[21..], &mut second);
    assert!(rt; written == 15 && are_written(&BYTES[21..], &second, written));
}

/// Units, `room`, units read, bytes written.
const TAILS: &str = "\
D83D DCA9 | 3 | 0 |
D83D 0062 | 3 | 1 | EF BF BD
0061 00E4 | 2 | 1 | 61
2603 | 2 | 0 |";

#[derive(Drop)]
struct TailRows;

impl Table for TailRows {
    const ROWS: &'static str = TAILS;

    const COUNT: usize = 4;

    fn holds(&mut self, row: &mut Row<'_>) -> bool {
        let units = row.units();
        let units = units.as_slice();
        let room = row.number();
        if room > 3 || units.is_empty() {
            return false;
        }
        let mut dst = [0x71; 3];
        let (read, written) = convert_utf16_to_utf8_partial_tail(units, &mut dst[..room]);
        read == row.number() && are_written(row.bytes().as_slice(), &dst, written)
    }
}

#[test]
fn tails(rt: HostRuntime) {
    assert_rows(&rt, &mut TailRows);
}

/// Sources and their UTF-8. There are characters of each length, cut pairs, and pairs at the end.
const SOURCES: &str = "\
|
0062 | 62
00E4 2603 D83D DCA9 0062 | C3 A4 E2 98 83 F0 9F 92 A9 62
D83D DCA9 | F0 9F 92 A9
D83D D83D DCA9 DCA9 | EF BF BD F0 9F 92 A9 EF BF BD
2603 2603 2603 D83D | E2 98 83 E2 98 83 E2 98 83 EF BF BD
DCA9 0061 0061 0061 0061 | EF BF BD 61 61 61 61
0061 0062 0063 0064 0065 0066 0067 0068 0069 006A 006B 006C 006D 006E 006F 0070 0071 0072 0073 0074 0075 \
D83D DCA9 0076 2603 0077 00B6 0078 0079 007A 007A | \
61 62 63 64 65 66 67 68 69 6A 6B 6C 6D 6E 6F 70 71 72 73 74 75 F0 9F 92 A9 76 E2 98 83 77 C2 B6 78 79 7A 7A";

/// Returns the number of code units and of UTF-8 bytes of the character that starts with the first of two units. An
/// unpaired surrogate counts as U+FFFD.
fn lengths_of(unit: u16, next: Option<&u16>) -> (usize, usize) {
    match (unit, next) {
        (0..=0x7F, _) => (1, 1),
        (0x80..=0x7FF, _) => (1, 2),
        (0xD800..=0xDBFF, Some(0xDC00..=0xDFFF)) => (2, 4),
        _ => (1, 3),
    }
}

/// Returns whether the first `read` units are whole characters, and their UTF-8 has `written` bytes.
fn is_prefix(units: &[u16], read: usize, written: usize) -> bool {
    let (mut end, mut length) = (0usize, 0usize);
    for at in 0..read.min(units.len()) {
        if at == end {
            let (more, bytes) = lengths_of(units[at], units.get(at + 1));
            end = end.saturating_add(more);
            length = length.saturating_add(bytes);
        }
    }
    end == read && length == written
}

/// Returns whether the inner half writes a prefix of whole characters, and reads all or leaves at most three bytes
/// free. Which characters it leaves is open.
fn inner_is_right(units: &[u16], bytes: &[u8], room: usize) -> bool {
    let mut dst = [0x71; 40];
    let Some(part) = dst.get_mut(..room) else {
        return false;
    };
    let (read, written) = convert_utf16_to_utf8_partial_inner(units, part);
    let Some(prefix) = bytes.get(..written) else {
        return false;
    };
    (read == units.len() || room <= written.saturating_add(3))
        && is_prefix(units, read, written)
        && are_written(prefix, &dst, written)
}

/// Destinations of each length.
#[derive(Drop)]
struct Inner;

impl Table for Inner {
    const ROWS: &'static str = SOURCES;

    const COUNT: usize = 8;

    fn holds(&mut self, row: &mut Row<'_>) -> bool {
        let (units, bytes) = (row.units(), row.bytes());
        let (units, bytes) = (units.as_slice(), bytes.as_slice());
        let mut holds = is_prefix(units, units.len(), bytes.len());
        for room in 0..=40 {
            holds = holds && inner_is_right(units, bytes, room);
        }
        holds
    }
}

#[test]
fn inner_fills_all_but_three_bytes(rt: HostRuntime) {
    assert_rows(&rt, &mut Inner);
}

#[test]
fn converts_what_fits(rt: HostRuntime) {
    let mut one = [0x71];
    let answer = convert_utf8_to_utf16_up_to_invalid(&[0xF0, 0x9F, 0x92, 0xA9], &mut one);
    assert!(rt; answer == (0, 0) && one == [0x71]);
    let mut two = [0x71; 2];
    let src = [0xE2, 0x98, 0x83, 0xF0, 0x9F, 0x92, 0xA9];
    let answer = convert_utf8_to_utf16_up_to_invalid(&src, &mut two);
    assert!(rt; answer == (3, 1) && two == [0x2603, 0x71]);
}

#[test]
fn replaces_malformed_sequences(rt: HostRuntime) {
    let mut dst = [0x71; 6];
    let written = convert_utf8_to_utf16(&[0x61, 0xF0, 0x9F, 0x92, 0xC2], &mut dst);
    assert!(rt; written == 3 && dst == [0x0061, 0xFFFD, 0xFFFD, 0x71, 0x71, 0x71]);
}

/// The longest well-formed prefix is written even if the bytes are refused.
#[test]
fn refuses_malformed_sequences(rt: HostRuntime) {
    let mut dst = [0x71; 4];
    let answer = convert_utf8_to_utf16_without_replacement(&[0x61, 0xC3, 0xA4, 0xFF], &mut dst);
    assert!(rt; answer == None && dst == [0x0061, 0x00E4, 0x71, 0x71]);
}
