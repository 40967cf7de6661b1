//! The calls that count the unpaired surrogates they replace: rows, the encoder over pieces, and a surrogate at each
//! index of a long source.
//!
//! The numbers are Python's. Of a conversion: `units.decode("utf-16-le", "surrogatepass")`, character by character
//! while its UTF-8 fits, with U+FFFD for a surrogate, and how many of those there were. Of the encoder: how often
//! `codecs.getincrementaldecoder("utf-16-le")` called an error handler that returns U+FFFD and the index of the next
//! unit.

use crate::assertions::assert_rows;
use encoding_text::mem::{
    convert_utf16_to_str_partial_with_count, convert_utf16_to_utf8_partial_with_count,
};
use encoding_text::utf_8::{EncoderResult, Utf8Encoder};
use test_support::encoder_vectors::is_pending;
use test_support::rows::{Row, Table};
use test_support::texts::are_written;

/// Code units, room, units read, bytes written, unpaired surrogates replaced.
const CONVERSIONS: &str = "\
| 0 | 0 | | 0
0061 | 0 | 0 | | 0
D83D | 2 | 0 | | 0
D83D | 3 | 1 | EF BF BD | 1
DCA9 | 3 | 1 | EF BF BD | 1
D83D DCA9 | 3 | 0 | | 0
D83D DCA9 | 4 | 2 | F0 9F 92 A9 | 0
DCA9 D83D | 5 | 1 | EF BF BD | 1
DCA9 D83D | 6 | 2 | EF BF BD EF BF BD | 2
D83D D83D DCA9 | 6 | 1 | EF BF BD | 1
D83D D83D DCA9 | 7 | 3 | EF BF BD F0 9F 92 A9 | 1
D83D DCA9 DCA9 | 7 | 3 | F0 9F 92 A9 EF BF BD | 1
0061 D800 0062 DFFF 0063 | 9 | 5 | 61 EF BF BD 62 EF BF BD 63 | 2
0061 D800 0062 DFFF 0063 | 4 | 2 | 61 EF BF BD | 1
DBFF DC00 DC00 DBFF | 10 | 4 | F4 8F B0 80 EF BF BD EF BF BD | 2
D7FF E000 FFFF | 9 | 3 | ED 9F BF EE 80 80 EF BF BF | 0
D800 D800 D800 D800 | 12 | 4 | EF BF BD EF BF BD EF BF BD EF BF BD | 4
D800 D800 D800 D800 | 11 | 3 | EF BF BD EF BF BD EF BF BD | 3";

/// Returns whether both conversions read, write and count this.
fn conversions_are(units: &[u16], room: usize, read: usize, bytes: &[u8], replaced: usize) -> bool {
    let mut dst = [0x71; 16];
    let mut text = [0x71; 16];
    let (Some(part), Some(part_of_text)) = (dst.get_mut(..room), text.get_mut(..room)) else {
        return false;
    };
    if std::str::from_utf8(part_of_text).is_err() {
        return false;
    }
    let wanted = (read, bytes.len(), replaced);
    convert_utf16_to_utf8_partial_with_count(units, part) == wanted
        && convert_utf16_to_str_partial_with_count(units, part_of_text) == wanted
        && are_written(bytes, &dst, bytes.len())
        && are_written(bytes, &text, bytes.len())
}

#[derive(Drop)]
struct Conversions;

impl Table for Conversions {
    const ROWS: &'static str = CONVERSIONS;

    const COUNT: usize = 18;

    fn holds(&mut self, row: &mut Row<'_>) -> bool {
        let units = row.units();
        let room = row.number();
        let read = row.number();
        let bytes = row.bytes();
        conversions_are(units.as_slice(), room, read, bytes.as_slice(), row.number())
    }
}

#[test]
fn conversions_count(rt: HostRuntime) {
    assert_rows(&rt, &mut Conversions);
}

/// For each piece, between semicolons: its code units, the unpaired surrogates replaced, and the number of bytes
/// written. The last one is marked.
const PIECES: &str = "\
D83D | 0 | 0 ; DCA9 | 0 | 4
D83D | 0 | 0 ; | 1 | 3
D83D | 0 | 0 ; 0062 | 1 | 4
D83D | 0 | 0 ; D83D | 1 | 3 ; DCA9 | 0 | 4
0061 D83D | 0 | 1 ; D83D D83D | 2 | 6 ; | 1 | 3
DCA9 | 1 | 3 ; DCA9 D800 | 1 | 3 ; D800 | 2 | 6
D83D | 0 | 0 ; | 0 | 0 ; DCA9 DCA9 | 1 | 7
D83D | 0 | 0 ; DCA9 DC00 D83D | 1 | 7 ; DCA9 | 0 | 4";

#[derive(Drop)]
struct Pieces;

impl Table for Pieces {
    const ROWS: &'static str = PIECES;

    const COUNT: usize = 8;

    fn holds(&mut self, row: &mut Row<'_>) -> bool {
        let mut encoder = Utf8Encoder::new_inner();
        let mut holds = true;
        let mut left = row.rest().split(';').count();
        for piece in row.rest().split(';') {
            left = left.saturating_sub(1);
            holds = holds && piece_holds(&mut encoder, &mut Row::of(piece), left == 0);
        }
        holds && is_pending(encoder, "none")
    }
}

/// Returns whether a call over a piece reads all of it, and writes and counts this.
fn piece_holds(encoder: &mut Utf8Encoder, piece: &mut Row<'_>, last: bool) -> bool {
    let units = piece.units();
    let replaced = piece.number();
    let written = piece.number();
    let answer = encoder.encode_from_utf16_with_count(units.as_slice(), &mut [0; 16], last);
    answer == (EncoderResult::InputEmpty, units.length, written, replaced) && !piece.is_misspelt()
}

#[test]
fn pieces_count(rt: HostRuntime) {
    assert_rows(&rt, &mut Pieces);
}

/// A pending surrogate counts once U+FFFD is written for it, and not before.
#[test]
fn a_pending_surrogate_counts_once_replaced(rt: HostRuntime) {
    let mut encoder = Utf8Encoder::new_inner();
    let mut dst = [0; 4];
    let pending = encoder.encode_from_utf16_with_count(&[0xD83D], &mut [], false);
    assert!(rt; pending == (EncoderResult::InputEmpty, 1, 0, 0));
    let full = encoder.encode_from_utf16_with_count(&[0x62], &mut dst[..2], true);
    assert!(rt; full == (EncoderResult::OutputFull, 0, 0, 0));
    let full = encoder.encode_from_utf8_with_count("b", &mut dst[..2], true);
    assert!(rt; full == (EncoderResult::OutputFull, 0, 0, 0));
    let written = encoder.encode_from_utf8_with_count("b", &mut dst, true);
    assert!(rt; written == (EncoderResult::InputEmpty, 1, 4, 1));
    let none = encoder.encode_from_utf8_with_count("b", &mut dst, true);
    assert!(rt; none == (EncoderResult::InputEmpty, 1, 1, 0));
}

/// Returns how many unpaired surrogates are counted in 200 letters with two units at this index.
fn counted_at(first: u16, second: u16, index: usize) -> usize {
    let mut units = [0x61; 200];
    let mut dst = [0; 600];
    if let Some(unit) = units.get_mut(index) {
        *unit = first;
    }
    if let Some(unit) = units.get_mut(index.saturating_add(1)) {
        *unit = second;
    }
    let (_, _, replaced) = convert_utf16_to_utf8_partial_with_count(&units, &mut dst);
    replaced
}

/// Two units at each index but the last: a pair, two halves the other way round, and one of them alone.
#[test]
fn counts_at_each_index(rt: HostRuntime) {
    for index in 0..199 {
        assert!(rt; counted_at(0xD83D, 0xDCA9, index) == 0, "{index}");
        assert!(rt; counted_at(0xDCA9, 0xD83D, index) == 2, "{index}");
        assert!(rt; counted_at(0xDCA9, 0x4E00, index) == 1, "{index}");
        assert!(rt; counted_at(0x4E00, 0xD83D, index) == 1, "{index}");
    }
}
