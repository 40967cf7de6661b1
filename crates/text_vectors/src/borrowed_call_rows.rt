//! The decoder's call without a destination: single calls, the three forms mixed, and the vectors, whole and cut.

use crate::assertions::{assert_rows, assert_vectors};
use crate::decoder_rows::row_holds;
use encoding_text::decoder::{Piece, Utf8Decoder};
use std::alloc::{AllocError, Global};
use test_support::decoder_vectors::{Delivered, Vector, VectorTest, delivered};
use test_support::rows::{Row, Table};

/// Calls: source, mark, piece, bytes read; those of the other forms are as in the rows of the decoder.
const ROWS: &str = "\
new
piece | 61 C3 A4 E2 | more | Text 61 C3 A4 | 3
neutral
piece | E2 | more | InputEmpty | 1
pending
piece | 82 AC 5A | more | U+20AC | 2
neutral
piece | 5A | last | Text 5A | 1
piece |  | last | InputEmpty | 0
neutral
new
piece | E2 82 | last | Malformed 2 | 2
neutral
new
piece | FF 61 | more | Malformed 1 | 1
neutral
new
piece | E2 82 | more | InputEmpty | 2
pending
piece | 61 | more | Malformed 2 | 0
neutral
piece | 61 | more | Text 61 | 1
neutral
new
utf16 | C3 | 2 | more | InputEmpty | 1 |
pending
piece | A4 61 | last | U+00E4 | 1
neutral
utf8 | 61 | 4 | last | InputEmpty | 1 | 61
neutral
new
piece | F0 9F | more | InputEmpty | 2
utf8 | 92 | 4 | more | InputEmpty | 1 |
pending
piece |  | more | InputEmpty | 0
pending
piece | A9 | last | U+1F4A9 | 1
neutral
piece | E2 | more | InputEmpty | 1
utf16 | 28 | 2 | more | Malformed 1 | 0 |
neutral
piece | 28 | last | Text 28 | 1
utf8 | E2 98 | 8 | more | InputEmpty | 2 |
utf16 | 83 | 1 | more | OutputFull | 0 |
pending
piece |  | last | Malformed 2 | 0
neutral
new
piece | F4 8F BF | more | InputEmpty | 3
piece | FF | last | Malformed 3 | 0
piece | FF | last | Malformed 1 | 1
piece |  | last | InputEmpty | 0
neutral
new
piece | E0 | last | Malformed 1 | 1
piece | E1 | more | InputEmpty | 1
piece | 80 80 | more | U+1000 | 2
neutral
new
piece | C3 | last | Malformed 1 | 1
neutral
piece | A4 | last | Malformed 1 | 1
new
piece | EF | more | InputEmpty | 1
piece | BF | more | InputEmpty | 1
piece | BE | last | U+FFFE | 1
new
piece | EF | more | InputEmpty | 1
piece | BC | last | Malformed 2 | 1
neutral
new
piece | EF BB BF 61 | more | Text EF BB BF 61 | 4
new
piece | 61 ED A0 80 | more | Text 61 | 1
piece | ED A0 80 | more | Malformed 1 | 1
piece | A0 80 | more | Malformed 1 | 1
piece | 80 | more | Malformed 1 | 1
neutral";

#[derive(Drop)]
struct Calls {
    decoder: Utf8Decoder,
}

impl Table for Calls {
    const ROWS: &'static str = ROWS;

    const COUNT: usize = 78;

    fn holds(&mut self, row: &mut Row<'_>) -> bool {
        row_holds(&mut self.decoder, row)
    }
}

#[test]
fn rows_hold(rt: HostRuntime) {
    let decoder = Utf8Decoder::new_inner();
    assert_rows(&rt, &mut Calls { decoder });
}

/// Returns whether the bytes are the next of those expected, after `came.0` of them. They count then.
fn come_next(wanted: &[u8], came: &mut (usize, usize), bytes: &[u8]) -> bool {
    let end = came.0.saturating_add(bytes.len());
    let next = wanted.get(came.0..end) == Some(bytes);
    came.0 = end;
    next
}

/// Returns whether a piece, made of these bytes, is the next one: its bytes, or its report, after `came.1` reports.
fn piece_comes_next(
    wanted: &Delivered<u8>,
    came: &mut (usize, usize),
    piece: &Piece<'_>,
    prefix: &[u8],
) -> bool {
    match piece {
        Piece::Text(text) => text.as_bytes() == prefix && come_next(&wanted.0, came, prefix),
        Piece::Char(scalar) => {
            come_next(&wanted.0, came, scalar.encode_utf8(&mut [0; 4]).as_bytes())
        }
        Piece::Malformed(length) => {
            let report = wanted.1.get(came.1) == Some(&(came.0, usize::from(*length)));
            came.1 = came.1.saturating_add(1);
            report
        }
        Piece::InputEmpty => true,
    }
}

/// Passes the unread bytes, at most `most` in each call, with the last of them marked as the last. Returns whether all
/// is read, and the pieces are those expected.
fn pieces_are(src: &[u8], most: usize, wanted: &Delivered<u8>) -> bool {
    let mut decoder = Utf8Decoder::new_inner();
    let mut unread = src;
    let mut came = (0, 0);
    for _ in 0..24 {
        let handed = unread.get(..most).unwrap_or(unread);
        let last = handed.len() == unread.len();
        let (piece, read) = decoder.decode_borrowed_raw(handed, last);
        let (Some(rest), Some(prefix)) = (unread.get(read..), handed.get(..read)) else {
            return false;
        };
        unread = rest;
        if !piece_comes_next(wanted, &mut came, &piece, prefix) {
            return false;
        }
        if last && matches!(piece, Piece::InputEmpty) {
            return came == (wanted.0.len(), wanted.1.len());
        }
    }
    false
}

/// The pieces of a vector are its parts, whole and cut after each byte, each two and each three.
#[derive(Drop)]
struct InPieces;

impl VectorTest for InPieces {
    fn holds(&mut self, alloc: Global, vector: &Vector) -> Result<bool, AllocError> {
        let want = delivered::<u8>(alloc, vector)?;
        let mut holds = true;
        for most in [1, 2, 3, 16] {
            holds = holds && pieces_are(&vector.bytes, most, &want);
        }
        Ok(holds)
    }
}

#[test]
fn vectors_come_in_pieces(rt: HostRuntime) -> Result<(), AllocError> {
    assert_vectors(&rt, rt.alloc(), &mut InPieces)
}
