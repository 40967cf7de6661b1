//! The encoder's vectors. And the encoder while nothing is pending: vectors and limits.

use crate::assertions::assert_rows;
use encoding_text::utf_8::{EncoderResult, Utf8Encoder};
use test_support::encoder_vectors::{LIMITS, Source, VECTORS, is_pending};
use test_support::rows::{Row, Table};
use test_support::texts::are_written;

/// Returns whether a new encoder reads all units of a source, writes these bytes into a long destination, and has this
/// pending then.
fn encodes(source: &Source, last: bool, bytes: &[u8], surrogate: &str) -> bool {
    let mut encoder = Utf8Encoder::new_inner();
    let mut dst = [0x71; 64];
    let (result, read, written) = encoder.encode_from_utf16_raw(
        source.units.as_slice(),
        &mut dst,
        last,
    );
    result == EncoderResult::InputEmpty
        && read == source.units.length
        && are_written(bytes, &dst, written)
        && is_pending(encoder, surrogate)
}

#[derive(Drop)]
struct Vectors;

impl Table for Vectors {
    const ROWS: &'static str = VECTORS;

    const COUNT: usize = 16;

    /// The UTF-8 of a row is written by a call marked last, and by one that isn't. But a high surrogate that ends the
    /// second isn't written: it is pending then.
    fn holds(&mut self, row: &mut Row<'_>) -> bool {
        let source = Source::of(row);
        let (bytes, surrogate) = if source.units.as_slice() == [0xD800].as_slice() {
            ([].as_slice(), "D800")
        } else {
            (source.bytes.as_slice(), "none")
        };
        encodes(&source, true, source.bytes.as_slice(), "none")
            && encodes(&source, false, bytes, surrogate)
    }
}

#[test]
fn encodes_vectors(rt: HostRuntime) {
    assert_rows(&rt, &mut Vectors);
}

/// Returns whether a new encoder writes the first `bytes` bytes of a source, reads `units` units, and has nothing
/// pending then.
fn encodes_into(
    source: &Source,
    room: usize,
    wanted: EncoderResult,
    units: usize,
    bytes: usize,
) -> bool {
    let mut encoder = Utf8Encoder::new_inner();
    let mut dst = [0x71; 64];
    let (Some(room), Some(prefix)) = (dst.get_mut(..room), source.bytes.as_slice().get(..bytes))
    else {
        return false;
    };
    let (result, read, written) = encoder.encode_from_utf16_raw(
        source.units.as_slice(),
        room,
        true,
    );
    result == wanted
        && read == units
        && are_written(prefix, &dst, written)
        && is_pending(encoder, "none")
}

#[derive(Drop)]
struct Limits;

impl Table for Limits {
    const ROWS: &'static str = LIMITS;

    const COUNT: usize = 34;

    /// A source fits exactly into the length of its UTF-8. Into one byte less all characters but the last are written.
    fn holds(&mut self, row: &mut Row<'_>) -> bool {
        let source = Source::of(row);
        let (units, size) = (source.units.length, source.bytes.length);
        let less = size.saturating_sub(1);
        let (first_units, first_bytes) = (source.prefix_units, source.prefix_bytes);
        encodes_into(&source, size, EncoderResult::InputEmpty, units, size)
            && encodes_into(
                &source,
                less,
                EncoderResult::OutputFull,
                first_units,
                first_bytes,
            )
            && keeps_what_is_after(&source)
    }
}

/// Into 64 bytes that contain 0, 1, 2 and so on. Those after the written bytes are unchanged.
fn keeps_what_is_after(source: &Source) -> bool {
    let mut dst = [0; 64];
    for i in 0..64 {
        dst[i] = i as u8;
    }
    let before = dst;
    let (result, read, written) = Utf8Encoder::new_inner().encode_from_utf16_raw(
        source.units.as_slice(),
        &mut dst,
        true,
    );
    result == EncoderResult::InputEmpty
        && read == source.units.length
        && dst.get(..written) == Some(source.bytes.as_slice())
        && dst.get(written..) == before.get(written..)
}

#[test]
fn writes_what_fits(rt: HostRuntime) {
    assert_rows(&rt, &mut Limits);
}

/// Returns whether the length that a query returns is enough for its units.
fn three_bytes_are_enough() -> bool {
    let mut encoder = Utf8Encoder::new_inner();
    let mut dst = [0; 12];
    let units = [0x2C9F, 0x2CA9, 0x2CA3, 0x2C9F];
    encoder.max_buffer_length_from_utf16_without_replacement(4) == Some(12)
        && encoder.encode_from_utf16_raw(&units, &mut dst, true)
            == (EncoderResult::InputEmpty, 4, 12)
        && dst
            == [
                0xE2, 0xB2, 0x9F, 0xE2, 0xB2, 0xA9, 0xE2, 0xB2, 0xA3, 0xE2, 0xB2, 0x9F,
            ]
}

#[test]
fn three_bytes_a_unit(rt: HostRuntime) {
    assert!(rt; three_bytes_are_enough());
}

/// Returns whether an empty text is read with either mark.
fn reads_no_text(last: bool) -> bool {
    let answer = Utf8Encoder::new_inner().encode_from_utf8_raw("", &mut [], last);
    answer == (EncoderResult::InputEmpty, 0, 0)
}

#[test]
fn empty_text(rt: HostRuntime) {
    assert!(rt; reads_no_text(false) && reads_no_text(true));
}
