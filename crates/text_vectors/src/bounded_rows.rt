//! Bounded conversions into destinations of each length: how much fits, and that the rest is unchanged, or is cleared
//! in a text. And conversions into the prefix of a text, by rows.

use crate::assertions::assert_rows;
use encoding_text::mem::{
    clear_continuation_bytes, convert_latin1_to_str, convert_latin1_to_str_partial,
    convert_latin1_to_utf8_partial, convert_utf16_to_str, convert_utf16_to_str_partial,
    convert_utf16_to_utf8_partial,
};
use test_support::rows::{Row, Table};
use test_support::texts::{are_all, is_text};

/// Returns the number of units read and bytes written, if the unit after `letters` letters has this length in UTF-8,
/// and all others are letters.
fn longest_prefix(letters: usize, size: usize, length: usize, room: usize) -> (usize, usize) {
    if room < letters {
        return (room, room);
    }
    let more = size.saturating_sub(1);
    if room.saturating_sub(letters) < size {
        return (letters, letters);
    }
    let written = room.min(length.saturating_add(more));
    (written.saturating_sub(more), written)
}

/// Returns whether zeros follow the written bytes, as many of them as fit, and `q` follows these.
fn is_cleared(dst: &[u8], written: usize, zeros: usize, room: usize) -> bool {
    let end = written.saturating_add(zeros).min(room);
    are_all(dst.get(written..end).unwrap_or_default(), 0)
        && are_all(dst.get(end..).unwrap_or_default(), b'q')
}

/// Returns whether the bytes that fit are written, and `q` stays after them.
fn latin1_tail_stays(src: &[u8], letters: usize, room: usize) -> bool {
    let mut dst = [b'q'; 220];
    let Some(part) = dst.get_mut(..room) else {
        return false;
    };
    let reported = convert_latin1_to_utf8_partial(src, part);
    reported == longest_prefix(letters, 2, src.len(), room) && is_cleared(&dst, reported.1, 0, room)
}

/// Returns whether a text takes the same, followed by sixteen zeros. Makes the call that converts all if the
/// destination is long enough.
fn latin1_clears(src: &[u8], letters: usize, room: usize) -> bool {
    let mut dst = [b'q'; 220];
    let Some(part) = dst.get_mut(..room) else {
        return false;
    };
    if !is_text(part) {
        return false;
    }
    let reported = match src.len().checked_mul(2) {
        Some(most) if most <= part.len() => (src.len(), convert_latin1_to_str(src, part)),
        _ => convert_latin1_to_str_partial(src, part),
    };
    is_text(part)
        && reported == longest_prefix(letters, 2, src.len(), room)
        && is_cleared(&dst, reported.1, 16, room)
}

/// A byte that becomes two, after letters and before forty letters, into destinations of each length.
#[test]
fn latin1_tails_stay(rt: HostRuntime) {
    for high in [0x80, 0xA0, 0xCA, 0xE4, 0xFF] {
        for letters in 0..70 {
            let mut src = [b'b'; 110];
            src[..letters].fill(b'a');
            src[letters] = high;
            let length = letters + 41;
            for room in 0..2 * length + 1 {
                let src = &src[..length];
                let stays = latin1_tail_stays(src, letters, room)
                    && latin1_clears(src, letters, room);
                assert!(rt; stays, "{high}, {letters}, {room}");
            }
        }
    }
}

/// Returns whether the units that fit are written, and `q` stays after them.
fn utf16_tail_stays(src: &[u16], letters: usize, size: usize, room: usize) -> bool {
    let mut dst = [b'q'; 330];
    let Some(part) = dst.get_mut(..room) else {
        return false;
    };
    let reported = convert_utf16_to_utf8_partial(src, part);
    reported == longest_prefix(letters, size, src.len(), room)
        && is_cleared(&dst, reported.1, 0, room)
}

/// Returns whether a text takes the same, with nothing to clear in letters. Makes the call that converts all if the
/// destination is long enough.
fn utf16_text_stays(src: &[u16], letters: usize, size: usize, room: usize) -> bool {
    let mut dst = [b'q'; 330];
    let Some(part) = dst.get_mut(..room) else {
        return false;
    };
    if !is_text(part) {
        return false;
    }
    let reported = match src.len().checked_mul(3) {
        Some(most) if most <= part.len() => (src.len(), convert_utf16_to_str(src, part)),
        _ => convert_utf16_to_str_partial(src, part),
    };
    is_text(part)
        && reported == longest_prefix(letters, size, src.len(), room)
        && is_cleared(&dst, reported.1, 0, room)
}

/// A unit of two or three bytes after letters and before forty letters, into destinations of each length.
#[test]
fn utf16_tails_stay(rt: HostRuntime) {
    for (unit, size) in [
        (0x00CA, 2),
        (0x00E4, 2),
        (0x4E00, 3),
        (0xD83D, 3),
        (0xDCA9, 3),
    ] {
        for letters in 0..70 {
            let mut src = [0x62u16; 110];
            src[..letters].fill(0x61);
            src[letters] = unit;
            let length = letters + 41;
            for room in 0..3 * length + 1 {
                let src = &src[..length];
                let stays = utf16_tail_stays(src, letters, size, room)
                    && utf16_text_stays(src, letters, size, room);
                assert!(rt; stays, "{unit}, {letters}, {room}");
            }
        }
    }
}

/// The call, its source, the text in the destination, how much is read and written, and the text that is left.
const ROWS: &str = "\
utf16 | 0061 | C3 A4 62 | 1 | 1 | 61 00 62
utf16 | 2603 | F0 9F 92 A9 62 | 1 | 3 | E2 98 83 00 62
utf16 | | C3 A4 | 0 | 0 | C3 A4
whole utf16 | 0061 | E2 98 83 | 1 | 1 | 61 00 00
latin1 | E4 | 71 71 71 71 71 71 71 71 71 71 71 71 71 71 71 71 71 71 71 71 | 1 | 2 \
| C3 A4 00 00 00 00 00 00 00 00 00 00 00 00 00 00 00 00 71 71
latin1 | | 71 71 71 71 | 0 | 0 | 00 00 00 00
latin1 | | 71 71 71 71 71 71 71 71 71 71 71 71 71 71 71 E2 98 83 71 | 0 | 0 \
| 00 00 00 00 00 00 00 00 00 00 00 00 00 00 00 00 00 00 71";

/// Makes the call of a row, or returns `None` if the destination is no text or too short.
fn converted(kind: &str, bytes: &[u8], units: &[u16], dst: &mut [u8]) -> Option<(usize, usize)> {
    if !is_text(dst) {
        return None;
    }
    match kind {
        "utf16" => Some(convert_utf16_to_str_partial(units, dst)),
        "latin1" => Some(convert_latin1_to_str_partial(bytes, dst)),
        _ if units.len().checked_mul(3)? <= dst.len() => {
            Some((units.len(), convert_utf16_to_str(units, dst)))
        }
        _ => None,
    }
}

#[derive(Drop)]
struct IntoTexts;

impl Table for IntoTexts {
    const ROWS: &'static str = ROWS;

    const COUNT: usize = 7;

    fn holds(&mut self, row: &mut Row<'_>) -> bool {
        let kind = row.word();
        let (mut bytes, mut units) = (Row::of("").bytes(), Row::of("").units());
        if kind == "latin1" {
            bytes = row.bytes();
        } else {
            units = row.units();
        }
        let mut dst = row.bytes();
        let reported = (row.number(), row.number());
        converted(kind, bytes.as_slice(), units.as_slice(), dst.as_mut_slice()) == Some(reported)
            && dst.as_slice() == row.bytes().as_slice()
    }
}

#[test]
fn rows_hold(rt: HostRuntime) {
    assert_rows(&rt, &mut IntoTexts);
}

#[test]
fn clears_continuation_bytes(rt: HostRuntime) {
    let mut bytes = *b"\x80\xBF\xC3\xA9\x80";
    clear_continuation_bytes(&mut bytes);
    assert!(rt; bytes == *b"\0\0\xC3\xA9\x80");
    clear_continuation_bytes(&mut bytes[2..]);
    assert!(rt; bytes == *b"\0\0\xC3\xA9\x80");
    clear_continuation_bytes(&mut bytes[3..]);
    assert!(rt; bytes == *b"\0\0\xC3\0\0");
}
