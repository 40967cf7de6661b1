//! The streaming encoder: Encoding Standard, section 8.1.2. Between two calls it is in the caller's storage.

ghost use Rattle.std.specs.Prelude.{◌≡◌, ℕ, ◌+◌, ◌*◌, ◌<◌, ◌≤◌, ◌↔◌, List, [], ◌∷◌, length, take, min, IsTrue, IsUtf8};
ghost use Rattle.encoding_definitions.specs.Prefixes.{WritesPrefix};
ghost use Rattle.encoding_definitions.specs.Utf16.{IsHighSurrogate};
ghost use Rattle.encoding_text.specs.Encoding.{IsPendingSurrogate, EncodeStep, TextEncodeStep};
ghost use Rattle.encoding_c.specs.States.{RepresentsEncoder, IsLastOf, IsPendingUnit, IsEncodeCodeOf, EncoderCall};

use crate::status::{INVALID_ARGUMENT_U8, as_text};
use encoding_text::utf_8::{EncoderResult, Utf8Encoder};

/// An encoder between two calls: its pending surrogate. A value that is no high surrogate represents an encoder with
/// none.
#[repr(C)]
#[derive(Clone, Copy)]
pub struct EncodingUtf8Encoder {
    pub surrogate: u16,
}

/// What an encode call returns: how much it read and wrote, and what ended it.
#[repr(C)]
#[derive(Clone, Copy)]
pub struct EncodingEncodeResult {
    pub read: usize,
    pub written: usize,
    pub result: u8,
}

/// Returns whether the code unit is a high surrogate.
fn is_high_surrogate(unit: u16) -> bool
    ensures { IsTrue result ↔ IsHighSurrogate unit }
{
    0xD800 <= unit && unit <= 0xDBFF
}

/// Returns the encoder that the storage represents.
pub(crate) fn restored(state: EncodingUtf8Encoder) -> Utf8Encoder
    ensures holds { RepresentsEncoder state result }
    ensures unit { 0 < length result → result ≡ state.surrogate ∷ [] }
{
    let mut encoder = Utf8Encoder::new_inner();
    if is_high_surrogate(state.surrogate) {
        encoder.encode_from_utf16_raw(&[state.surrogate], &mut [], false);
    }
    encoder
}

/// Returns whether a surrogate is pending.
fn is_holding(encoder: &Utf8Encoder) -> bool
    ensures holding { IsTrue result ↔ (0 < length encoder.now) }
    ensures surrogate { IsPendingSurrogate encoder.now }
{
    match encoder.max_buffer_length_from_utf16_without_replacement(0) {
        Some(room) => room > 0,
        None => false,
    }
}

/// Returns the storage of an encoder. `unit` is its pending surrogate, if it has one.
pub(crate) fn stored(encoder: &Utf8Encoder, unit: u16) -> EncodingUtf8Encoder
    requires { 0 < length encoder.now → encoder.now ≡ unit ∷ [] }
    ensures { RepresentsEncoder result encoder.now }
{
    let surrogate = if is_holding(encoder) { unit } else { 0 };
    EncodingUtf8Encoder { surrogate }
}

/// Returns the last of the code units, or `before` if there are none.
pub(crate) fn last_of(src: &[u16], before: u16) -> u16
    ensures { IsLastOf src.now before result }
{
    if src.is_empty() {
        before
    } else {
        src[src.len() - 1]
    }
}

/// Returns the code unit that is pending after a call, if one is.
pub(crate) fn unit_to_keep(ended: &EncoderResult, src: &[u16], before: u16) -> u16
    ensures { IsPendingUnit ended.now src.now before result }
{
    match ended {
        EncoderResult::OutputFull => before,
        EncoderResult::InputEmpty => last_of(src, before),
    }
}

/// Returns what ended a call as a number.
pub(crate) fn number(ended: &EncoderResult) -> u8
    ensures { IsEncodeCodeOf ended.now result }
{
    match ended {
        EncoderResult::InputEmpty => 0,
        EncoderResult::OutputFull => 1,
    }
}

/// Initializes an encoder without a pending surrogate.
#[unsafe(no_mangle)]
pub extern "C" fn encoding_text_utf8_encoder_new(encoder: &mut EncodingUtf8Encoder)
    ensures { RepresentsEncoder encoder.new [] }
{
    *encoder = EncodingUtf8Encoder { surrogate: 0 };
}

/// Returns the length in bytes of a destination that is large enough for the pending surrogate and `u16_length` code
/// units. Returns `usize::MAX` if the length reaches or exceeds it.
#[unsafe(no_mangle)]
pub extern "C" fn encoding_text_utf8_encoder_max_buffer_length_from_utf16_without_replacement(
    encoder: &EncodingUtf8Encoder,
    u16_length: usize,
) -> usize
    ensures { (surrogate : List ℕ) × RepresentsEncoder encoder.now surrogate
        × (result ≡ min (3 * (u16_length + length surrogate)) usize.MAX) }
{
    let inner = restored(*encoder);
    match inner.max_buffer_length_from_utf16_without_replacement(u16_length) {
        Some(room) => room,
        None => usize::MAX,
    }
}

/// Returns the length in bytes of a destination that is large enough for the pending surrogate and a text of
/// `byte_length` bytes. Returns `usize::MAX` if the length reaches or exceeds it.
#[unsafe(no_mangle)]
pub extern "C" fn encoding_text_utf8_encoder_max_buffer_length_from_utf8_without_replacement(
    encoder: &EncodingUtf8Encoder,
    byte_length: usize,
) -> usize
    ensures { (surrogate : List ℕ) × RepresentsEncoder encoder.now surrogate
        × (result ≡ min (byte_length + 3 * length surrogate) usize.MAX) }
{
    let inner = restored(*encoder);
    match inner.max_buffer_length_from_utf8_without_replacement(byte_length) {
        Some(room) => room,
        None => usize::MAX,
    }
}

/// Encodes the pending surrogate, then `src`. `last` marks the last call. The rest of `dst` is unchanged.
#[tactic(auto, using(crate::proofs::StateLemmas::unit_after))]
#[unsafe(no_mangle)]
pub extern "C" fn encoding_text_utf8_encoder_encode_from_utf16(
    encoder: &mut EncodingUtf8Encoder,
    src: &[u16],
    dst: &mut [u8],
    last: bool,
) -> EncodingEncodeResult
    ensures call { EncoderCall encoder.old encoder.new result.result (λ surrogate ended later.
        EncodeStep surrogate src.now (length dst.old) last ended result.read
        (take result.written dst.new) later
        × (3 * (length src.now + length surrogate) ≤ length dst.old
        → ended ≡ EncoderResult.InputEmpty)) }
    ensures within { result.read ≤ length src.now }
    ensures unchanged_after { WritesPrefix dst.old dst.new result.written
        (take result.written dst.new) }
{
    let before = *encoder;
    let mut inner = restored(before);
    let (ended, read, written) = inner.encode_from_utf16_raw(src, dst, last);
    let unit = unit_to_keep(&ended, src, before.surrogate);
    *encoder = stored(&inner, unit);
    EncodingEncodeResult {
        read,
        written,
        result: number(&ended),
    }
}

/// Encodes U+FFFD for a pending surrogate, then the text. The rest of `dst` is unchanged. `result` is
/// `INVALID_ARGUMENT_U8` if the bytes are ill-formed: then nothing is read or written.
#[unsafe(no_mangle)]
pub extern "C" fn encoding_text_utf8_encoder_encode_from_utf8(
    encoder: &mut EncodingUtf8Encoder,
    src: &[u8],
    dst: &mut [u8],
    last: bool,
) -> EncodingEncodeResult
    ensures call { IsUtf8 src.now
        → EncoderCall encoder.old encoder.new result.result (λ surrogate ended later.
        TextEncodeStep surrogate src.now (length dst.old) ended result.read
        (take result.written dst.new) later
        × (length src.now + 3 * length surrogate ≤ length dst.old
        → ended ≡ EncoderResult.InputEmpty)) }
    ensures within { result.read ≤ length src.now }
    ensures unchanged_after { WritesPrefix dst.old dst.new result.written
        (take result.written dst.new) }
    ensures invalid_argument { ¬ (IsUtf8 src.now)
        → (result.result ≡ u8.MAX) × (result.read ≡ 0) × (result.written ≡ 0)
        × (encoder.new ≡ encoder.old) }
{
    let Some(text) = as_text(src) else {
        return EncodingEncodeResult {
            read: 0,
            written: 0,
            result: INVALID_ARGUMENT_U8,
        };
    };
    let before = *encoder;
    let mut inner = restored(before);
    let (ended, read, written) = inner.encode_from_utf8_raw(text, dst, last);
    *encoder = stored(&inner, before.surrogate);
    EncodingEncodeResult {
        read,
        written,
        result: number(&ended),
    }
}
