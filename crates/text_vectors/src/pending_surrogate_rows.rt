//! The encoder with and without a pending surrogate: rows, and the queries.

use crate::assertions::assert_rows;
use encoding_text::utf_8::{EncoderResult, Utf8Encoder};
use test_support::encoder_vectors::is_pending;
use test_support::rows::{Row, Table};
use test_support::texts::are_written;

/// Returns an encoder whose pending surrogate is that of a field: none, or D83D.
fn encoder_at(surrogate: &str) -> Utf8Encoder {
    let mut encoder = Utf8Encoder::new_inner();
    if surrogate == "D83D" {
        let _ = encoder.encode_from_utf16_raw(&[0xD83D], &mut [], false);
    }
    encoder
}

/// Code units: pending before, source, `room`, mark, result, units read, bytes written, pending after. Texts, with
/// either mark: pending before, text, `room`, result, bytes read, bytes written, pending after.
const ROWS: &str = "\
units | none | 0063 D83D DCA9 | 4 | more | OutputFull | 1 | 63 | none
units | none | 0063 D83D DCA9 | 4 | last | OutputFull | 1 | 63 | none
units | none | 263A D83D | 6 | last | InputEmpty | 2 | E2 98 BA EF BF BD | none
units | none | D83D DCA9 | 3 | more | OutputFull | 0 | | none
units | none | D83D DCA9 | 3 | last | OutputFull | 0 | | none
units | none | D83D | 0 | more | InputEmpty | 1 | | D83D
units | none | 0063 D83D | 1 | more | InputEmpty | 2 | 63 | D83D
units | none | 0063 D83D | 0 | more | OutputFull | 0 | | none
units | none | D83D DCA9 D83D | 3 | more | OutputFull | 0 | | none
units | D83D | DCA9 | 3 | last | OutputFull | 0 | | D83D
units | D83D | 0062 | 4 | more | InputEmpty | 1 | EF BF BD 62 | none
units | D83D | 0062 | 3 | more | OutputFull | 0 | EF BF BD | none
units | D83D | D83D | 3 | more | InputEmpty | 1 | EF BF BD | D83D
units | D83D | | 0 | more | InputEmpty | 0 | | D83D
units | D83D | | 2 | last | OutputFull | 0 | | D83D
units | D83D | | 3 | last | InputEmpty | 0 | EF BF BD | none
units | D83D | DCA9 | 4 | last | InputEmpty | 1 | F0 9F 92 A9 | none
text | none | aä | 2 | OutputFull | 1 | 61 | none
text | none | aä | 3 | InputEmpty | 3 | 61 C3 A4 | none
text | none | aä | 0 | OutputFull | 0 | | none
text | D83D | a | 4 | InputEmpty | 1 | EF BF BD 61 | none
text | D83D | a | 3 | OutputFull | 0 | EF BF BD | none
text | D83D | | 2 | OutputFull | 0 | | D83D";

#[derive(Drop)]
struct Calls;

impl Table for Calls {
    const ROWS: &'static str = ROWS;

    const COUNT: usize = 23;

    fn holds(&mut self, row: &mut Row<'_>) -> bool {
        let of_units = row.word() == "units";
        let before = row.word();
        let text = row.word();
        let units = if of_units {
            Row::of(text).units()
        } else {
            Row::of("").units()
        };
        let room = row.number();
        let marks = if of_units { row.word() } else { "more last" };
        let result = row.word();
        let read = row.number();
        let bytes = row.bytes();
        let surrogate = row.word();
        let mut holds = true;
        for mark in marks.split(' ') {
            let mut encoder = encoder_at(before);
            let mut dst = [0x71; 8];
            let Some(part) = dst.get_mut(..room) else {
                return false;
            };
            let answer = if of_units {
                encoder.encode_from_utf16_raw(units.as_slice(), part, mark == "last")
            } else {
                encoder.encode_from_utf8_raw(text, part, mark == "last")
            };
            holds = holds
                && is_result(answer.0, result)
                && answer.1 == read
                && are_written(bytes.as_slice(), &dst, answer.2)
                && is_pending(encoder, surrogate);
        }
        holds
    }
}

/// Returns whether a field names this result.
fn is_result(outcome: EncoderResult, field: &str) -> bool {
    match outcome {
        EncoderResult::InputEmpty => field == "InputEmpty",
        EncoderResult::OutputFull => field == "OutputFull",
    }
}

#[test]
fn rows_with_and_without_a_pending_surrogate(rt: HostRuntime) {
    assert_rows(&rt, &mut Calls);
}

/// The two halves of a pair in two calls.
#[test]
fn a_pair_cut_between_calls(rt: HostRuntime) {
    let mut encoder = Utf8Encoder::new_inner();
    let first = encoder.encode_from_utf16_raw(&[0xD83D], &mut [], false);
    assert!(rt; first == (EncoderResult::InputEmpty, 1, 0));
    let mut dst = [0; 4];
    let second = encoder.encode_from_utf16_raw(&[0xDCA9], &mut dst, true);
    assert!(rt; second == (EncoderResult::InputEmpty, 1, 4));
    assert!(rt; dst == [0xF0, 0x9F, 0x92, 0xA9]);
}

/// Returns whether the queries have these results: the most bytes for `length` units, and for a text of `length` bytes.
fn queries_are(
    encoder: &Utf8Encoder,
    length: usize,
    from_utf16: Option<usize>,
    from_utf8: Option<usize>,
) -> bool {
    encoder.max_buffer_length_from_utf16_without_replacement(length) == from_utf16
        && encoder.max_buffer_length_from_utf8_without_replacement(length) == from_utf8
}

#[test]
fn queries(rt: HostRuntime) {
    let new = encoder_at("none");
    assert!(rt; queries_are(&new, 4, Some(12), Some(4)));
    let holding = encoder_at("D83D");
    assert!(rt; queries_are(&holding, 4, Some(15), Some(7)));
    assert!(rt; queries_are(&holding, usize::MAX - 3, None, Some(usize::MAX)));
    assert!(rt; queries_are(&holding, usize::MAX - 2, None, None));
}
