//! Single calls of the decoder, and the queries of buffer lengths.

use crate::assertions::assert_rows;
use encoding_text::decoder::{DecoderResult, Piece, Utf8Decoder};
use test_support::decoder_vectors::scalar_of_part16;
use test_support::rows::{Row, Table};
use test_support::texts::are_written;

/// Returns whether a field names this result.
fn is_result(outcome: &DecoderResult, field: &str) -> bool {
    match outcome {
        DecoderResult::InputEmpty => field == "InputEmpty",
        DecoderResult::OutputFull => field == "OutputFull",
        DecoderResult::Malformed(1, 0) => field == "Malformed 1",
        DecoderResult::Malformed(2, 0) => field == "Malformed 2",
        DecoderResult::Malformed(3, 0) => field == "Malformed 3",
        DecoderResult::Malformed(..) => false,
    }
}

/// Returns whether the call of a row has its result and writes the code units that end the row, and the rest is
/// unchanged.
fn to_utf16_is(decoder: &mut Utf8Decoder, row: &mut Row<'_>) -> bool {
    let src = row.bytes();
    let mut dst = [0x71; 8];
    let Some(room) = dst.get_mut(..row.number()) else {
        return false;
    };
    let last = row.word() == "last";
    let (result, read, written) = decoder.decode_to_utf16_raw(src.as_slice(), room, last);
    is_result(&result, row.word())
        && read == row.number()
        && are_written(row.units().as_slice(), &dst, written)
}

/// Returns whether the call of a row has its result and writes the bytes that end the row, and the rest is unchanged.
fn to_utf8_is(decoder: &mut Utf8Decoder, row: &mut Row<'_>) -> bool {
    let src = row.bytes();
    let mut dst = [0x71; 16];
    let Some(room) = dst.get_mut(..row.number()) else {
        return false;
    };
    let last = row.word() == "last";
    let (result, read, written) = decoder.decode_to_utf8_raw(src.as_slice(), room, last);
    is_result(&result, row.word())
        && read == row.number()
        && are_written(row.bytes().as_slice(), &dst, written)
}

/// Returns the length that the next field has, or `None`.
fn length_of(row: &mut Row<'_>) -> Option<usize> {
    if row.rest().trim_start().starts_with("None") {
        let _none = row.word();
        return None;
    }
    Some(row.number())
}

/// Returns whether the queries have these results: for this length, the most code units, bytes, and bytes with
/// replacements.
fn queries_are(decoder: &Utf8Decoder, row: &mut Row<'_>) -> bool {
    let length = row.number();
    decoder.max_utf16_buffer_length(length) == length_of(row)
        && decoder.max_utf8_buffer_length_without_replacement(length) == length_of(row)
        && decoder.max_utf8_buffer_length(length) == length_of(row)
}

/// Returns whether a piece is the one that a field names.
fn is_piece(piece: &Piece<'_>, field: &str) -> bool {
    match piece {
        Piece::Text(text) => match field.strip_prefix("Text") {
            Some(bytes) => text.as_bytes() == Row::of(bytes).bytes().as_slice(),
            None => false,
        },
        Piece::InputEmpty => field == "InputEmpty",
        Piece::Malformed(1) => field == "Malformed 1",
        Piece::Malformed(2) => field == "Malformed 2",
        Piece::Malformed(3) => field == "Malformed 3",
        Piece::Malformed(_) => false,
        Piece::Char(scalar) => scalar_of_part16(field) == Some(*scalar),
    }
}

/// Returns whether the call without a destination returns the piece of a row, and reads as much as the row says.
fn piece_is(decoder: &mut Utf8Decoder, row: &mut Row<'_>) -> bool {
    let src = row.bytes();
    let last = row.word() == "last";
    let (piece, read) = decoder.decode_borrowed_raw(src.as_slice(), last);
    is_piece(&piece, row.word()) && read == row.number()
}

/// Makes the call of a row. A row `new` starts a new decoder.
pub fn row_holds(decoder: &mut Utf8Decoder, row: &mut Row<'_>) -> bool {
    match row.word() {
        "new" => {
            *decoder = Utf8Decoder::new_inner();
            true
        }
        "neutral" => decoder.in_neutral_state(),
        "pending" => !decoder.in_neutral_state(),
        "utf16" => to_utf16_is(decoder, row),
        "utf8" => to_utf8_is(decoder, row),
        "piece" => piece_is(decoder, row),
        "lengths" => queries_are(decoder, row),
        _ => false,
    }
}

/// Calls: source, `room`, mark, result, bytes read, code units written. If bytes stay pending, the next calls show
/// which. A byte order mark is decoded like any other character. 6148914691236517205 is a third of `MAX`. In the last
/// rows a call into a queried length leaves enough for the rest. After `61`, and U+FFFD for the report, five bytes of
/// nine are left, and three are enough; of three code units one is left, which is enough.
const ROWS: &str = "\
new
utf16 | C3 A4 61 | 1 | more | OutputFull | 2 | 00E4
neutral
utf8 | 61 C3 A4 | 2 | more | OutputFull | 1 | 61
neutral
utf8 | 61 C3 A4 | 3 | more | InputEmpty | 3 | 61 C3 A4
neutral
new
utf16 | C3 | 1 | more | OutputFull | 0 |
neutral
utf16 | C3 | 2 | more | InputEmpty | 1 |
pending
utf16 | A4 | 1 | more | OutputFull | 0 |
pending
utf16 | A4 | 2 | more | InputEmpty | 1 | 00E4
neutral
utf16 | 61 C3 | 2 | more | OutputFull | 1 | 61
neutral
utf16 | 61 C3 | 3 | more | InputEmpty | 2 | 61
pending
utf16 | A4 | 2 | more | InputEmpty | 1 | 00E4
neutral
new
utf8 | 61 C3 | 4 | more | OutputFull | 1 | 61
neutral
utf8 | 61 C3 | 5 | more | InputEmpty | 2 | 61
pending
utf8 | A4 | 3 | more | OutputFull | 0 |
pending
utf8 | A4 | 4 | more | InputEmpty | 1 | C3 A4
neutral
new
utf16 | 61 C3 | 2 | more | OutputFull | 1 | 61
neutral
new
utf16 | 61 C3 | 3 | more | InputEmpty | 2 | 61
utf16 | A4 | 2 | more | InputEmpty | 1 | 00E4
new
utf16 | 80 | 1 | last | OutputFull | 0 |
neutral
utf16 | 80 | 2 | last | Malformed 1 | 1 |
neutral
new
utf16 | F4 8F BF | 4 | more | InputEmpty | 3 |
pending
utf16 | FF | 4 | last | Malformed 3 | 0 |
neutral
utf16 | FF | 4 | last | Malformed 1 | 1 |
utf16 |  | 4 | last | InputEmpty | 0 |
neutral
new
utf16 | E0 | 4 | last | Malformed 1 | 1 |
neutral
utf16 | E1 | 4 | more | InputEmpty | 1 |
utf16 | 80 80 | 4 | more | InputEmpty | 2 | 1000
new
utf16 | C3 | 4 | last | Malformed 1 | 1 |
neutral
utf16 | A4 | 4 | last | Malformed 1 | 1 |
new
utf16 | E2 | 2 | more | InputEmpty | 1 |
utf16 |  | 0 | last | Malformed 1 | 0 |
neutral
utf16 | 80 | 1 | last | OutputFull | 0 |
utf16 | 80 | 2 | last | Malformed 1 | 1 |
new
utf16 | EF | 4 | more | InputEmpty | 1 |
utf16 | BF | 4 | more | InputEmpty | 1 |
utf16 | BE | 4 | last | InputEmpty | 1 | FFFE
new
utf16 | EF | 4 | more | InputEmpty | 1 |
utf16 | BC | 4 | last | Malformed 2 | 1 |
new
utf16 | EF | 4 | last | Malformed 1 | 1 |
new
utf16 | E2 98 | 2 | more | InputEmpty | 2 |
lengths | 10 | 13 | 15 | 39
utf16 | 83 | 2 | more | InputEmpty | 1 | 2603
new
lengths | MAX - 1 | MAX | None | None
lengths | MAX | None | None | None
lengths | MAX - 3 | MAX - 2 | MAX | None
lengths | MAX - 2 | MAX - 1 | None | None
lengths | 6148914691236517204 | 6148914691236517205 | 6148914691236517207 | MAX
lengths | 6148914691236517205 | 6148914691236517206 | 6148914691236517208 | None
new
lengths | 4 | 5 | 7 | 15
utf16 | F0 9F 92 | 5 | more | InputEmpty | 3 |
lengths | 1 | 5 | 7 | 15
new
lengths | 2 | 3 | 5 | 9
utf8 | 61 C3 | 5 | more | InputEmpty | 2 | 61
lengths | 0 | 2 | 4 | 6
new
lengths | 2 | 3 | 5 | 9
utf8 | 61 FF | 9 | last | Malformed 1 | 2 | 61
lengths | 0 | 1 | 3 | 3
new
lengths | 2 | 3 | 5 | 9
utf16 | 61 FF | 3 | last | Malformed 1 | 2 | 61
lengths | 0 | 1 | 3 | 3";

#[derive(Drop)]
struct Calls {
    decoder: Utf8Decoder,
}

impl Table for Calls {
    const ROWS: &'static str = ROWS;

    const COUNT: usize = 101;

    fn holds(&mut self, row: &mut Row<'_>) -> bool {
        row_holds(&mut self.decoder, row)
    }
}

#[test]
fn rows_hold(rt: HostRuntime) {
    let decoder = Utf8Decoder::new_inner();
    assert_rows(&rt, &mut Calls { decoder });
}
