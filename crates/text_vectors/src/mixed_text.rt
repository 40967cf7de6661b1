//! A text with characters of one to four bytes through each call that takes it whole.

use encoding_text::decoder::{DecoderResult, Piece, Utf8Decoder};
use encoding_text::mem::{
    Latin1Bidi, check_str_for_latin1_and_bidi, check_utf8_for_latin1_and_bidi,
    check_utf16_for_latin1_and_bidi, convert_str_to_utf16, convert_utf8_to_utf16,
    convert_utf8_to_utf16_without_replacement, convert_utf16_to_str, convert_utf16_to_str_partial,
    convert_utf16_to_utf8, convert_utf16_to_utf8_partial, ensure_utf16_validity, is_str_bidi,
    is_utf8_bidi, is_utf16_bidi, utf8_length_from_utf16, utf16_length_from_utf8, utf16_valid_up_to,
};
use encoding_text::utf_8::{
    EncoderResult, Utf8Encoder, convert_utf8_to_utf16_up_to_invalid,
    convert_utf16_to_utf8_partial_inner, utf8_valid_up_to,
};
use std::test::Fail;
use test_support::mixed_text::{BYTES, TEXT, UNITS};
use test_support::texts::{are_written, is_text};

#[test]
fn the_text_has_these_bytes(rt: HostRuntime) -> Result<(), Fail> {
    assert!(rt; TEXT.as_bytes() == BYTES.as_slice());
    Ok(())
}

#[test]
fn the_decoder_takes_it(rt: HostRuntime) {
    let mut units = [0x71; 38];
    let answer = Utf8Decoder::new_inner().decode_to_utf16_raw(&BYTES, &mut units, true);
    assert!(rt; answer == (DecoderResult::InputEmpty, 36, 31) && are_written(&UNITS, &units, 31));
    let mut bytes = [0x71; 40];
    let answer = Utf8Decoder::new_inner().decode_to_utf8_raw(&BYTES, &mut bytes, true);
    assert!(rt; answer == (DecoderResult::InputEmpty, 36, 36) && are_written(&BYTES, &bytes, 36));
    let (piece, read) = Utf8Decoder::new_inner().decode_borrowed_raw(&BYTES, true);
    assert!(rt; read == 36 && piece == Piece::Text(TEXT));
}

#[test]
fn the_encoder_takes_it(rt: HostRuntime) {
    let mut bytes = [0x71; 40];
    let answer = Utf8Encoder::new_inner().encode_from_utf16_raw(&UNITS, &mut bytes, true);
    assert!(rt; answer == (EncoderResult::InputEmpty, 31, 36) && are_written(&BYTES, &bytes, 36));
    let mut bytes = [0x71; 40];
    let answer = Utf8Encoder::new_inner().encode_from_utf8_raw(TEXT, &mut bytes, true);
    assert!(rt; answer == (EncoderResult::InputEmpty, 36, 36) && are_written(&BYTES, &bytes, 36));
}

#[test]
fn queries_of_its_length(rt: HostRuntime) {
    let decoder = Utf8Decoder::new_inner();
    assert!(rt; decoder.in_neutral_state());
    assert!(rt; decoder.max_utf16_buffer_length(36) == Some(37));
    assert!(rt; decoder.max_utf8_buffer_length_without_replacement(36) == Some(39));
    assert!(rt; decoder.max_utf8_buffer_length(36) == Some(111));
    let encoder = Utf8Encoder::new_inner();
    assert!(rt; encoder.max_buffer_length_from_utf16_without_replacement(31) == Some(93));
    assert!(rt; encoder.max_buffer_length_from_utf8_without_replacement(36) == Some(36));
}

#[test]
fn conversions_to_utf16_take_it(rt: HostRuntime) {
    assert!(rt; utf8_valid_up_to(&BYTES) == 36 && utf16_length_from_utf8(&BYTES) == 31);
    let mut dst = [0x71; 37];
    let written = convert_utf8_to_utf16(&BYTES, &mut dst);
    assert!(rt; written == 31 && are_written(&UNITS, &dst, written));
    let mut dst = [0x71; 36];
    let answer = convert_utf8_to_utf16_without_replacement(&BYTES, &mut dst);
    assert!(rt; answer == Some(31) && are_written(&UNITS, &dst, 31));
    let mut dst = [0x71; 37];
    let answer = convert_utf8_to_utf16_up_to_invalid(&BYTES, &mut dst);
    assert!(rt; answer == (36, 31) && are_written(&UNITS, &dst, 31));
    assert!(rt; TEXT.len() == 36);
    let mut dst = [0x71; 36];
    let written = convert_str_to_utf16(TEXT, &mut dst);
    assert!(rt; written == 31 && are_written(&UNITS, &dst, written));
}

#[test]
fn conversions_to_utf8_take_it(rt: HostRuntime) {
    assert!(rt; utf16_valid_up_to(&UNITS) == 31 && utf8_length_from_utf16(&UNITS) == 36);
    let mut dst = [0x71; 94];
    let written = convert_utf16_to_utf8(&UNITS, &mut dst);
    assert!(rt; written == 36 && are_written(&BYTES, &dst, written));
    let mut dst = [0x71; 40];
    let answer = convert_utf16_to_utf8_partial(&UNITS, &mut dst);
    assert!(rt; answer == (31, 36) && are_written(&BYTES, &dst, 36));
    let mut dst = [0x71; 40];
    let answer = convert_utf16_to_utf8_partial_inner(&UNITS, &mut dst);
    assert!(rt; answer == (31, 36) && are_written(&BYTES, &dst, 36));
}

#[test]
fn a_text_takes_it(rt: HostRuntime) {
    let mut dst = [b'q'; 93];
    assert!(rt; is_text(&dst) && convert_utf16_to_str_partial(&UNITS, &mut dst) == (31, 36));
    assert!(rt; are_written(&BYTES, &dst, 36));
    let mut dst = [b'q'; 93];
    assert!(rt; is_text(&dst) && convert_utf16_to_str(&UNITS, &mut dst) == 36);
    assert!(rt; are_written(&BYTES, &dst, 36));
}

#[test]
fn it_is_left_to_right(rt: HostRuntime) {
    assert!(rt; !is_str_bidi(TEXT) && !is_utf8_bidi(&BYTES) && !is_utf16_bidi(&UNITS));
    assert!(rt; check_str_for_latin1_and_bidi(TEXT) == Latin1Bidi::LeftToRight);
    assert!(rt; check_utf8_for_latin1_and_bidi(&BYTES) == Latin1Bidi::LeftToRight);
    assert!(rt; check_utf16_for_latin1_and_bidi(&UNITS) == Latin1Bidi::LeftToRight);
}

/// Its surrogates are a pair, and are repaired once one of them is missing.
#[test]
fn its_surrogates(rt: HostRuntime) {
    let mut units = UNITS;
    ensure_utf16_validity(&mut units);
    assert!(rt; units == UNITS);
    units[21] = 0x61;
    ensure_utf16_validity(&mut units);
    assert!(rt; units[22] == 0xFFFD && utf16_valid_up_to(&units) == 31);
}
