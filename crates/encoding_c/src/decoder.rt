//! The streaming decoder: Encoding Standard, section 8.1.1. Between two calls it is in the caller's storage.

ghost use Rattle.std.specs.Prelude.{◌≡◌, ℕ, ◌<◌, ◌≤◌, ◌↔◌, ◌⊎◌, ◌+◌, List, [], ◌++◌, length, take, slice_index, min};
ghost use Rattle.std.specs.Prelude.{encode_utf8, IsTrue};
ghost use Rattle.std.specs.Char.Escape.{encode_utf16};
ghost use Rattle.encoding_definitions.specs.Sequence.{IsPending};
ghost use Rattle.encoding_text.specs.Decoding.{DecodeStepInto, BorrowedDecodeStep, Suffices, SufficesReplacing};
ghost use Rattle.encoding_text.specs.Decoding.{max_utf16_length, max_utf8_length, max_utf8_length_with_replacement};
ghost use Rattle.encoding_c.specs.States.{Represents, IsCodeOf, DecoderCall, PieceCall};

use encoding_text::decoder::{DecoderResult, Piece, Utf8Decoder};

/// A decoder between two calls: the pending bytes, and their count. The bytes after these have no meaning. A count and
/// bytes that are no incomplete sequence represent a decoder with nothing pending.
#[repr(C)]
#[derive(Clone, Copy)]
pub struct EncodingUtf8Decoder {
    pub pending: [u8; 3],
    pub count: u8,
}

/// What a decode call returns: how much it read and wrote, what ended it, and the length of the malformed sequence.
#[repr(C)]
#[derive(Clone, Copy)]
pub struct EncodingDecodeResult {
    pub read: usize,
    pub written: usize,
    pub result: u8,
    pub malformed_length: u8,
}

/// What a borrowed call returns: how much it read, the character, the kind of piece, and the length of the malformed
/// sequence.
#[repr(C)]
#[derive(Clone, Copy)]
pub struct EncodingPiece {
    pub read: usize,
    pub character: u32,
    pub kind: u8,
    pub malformed_length: u8,
}

/// The most bytes that may be pending.
pub(crate) const MAX_PENDING: u8 = 3;

/// Returns whether all of the source was read.
fn is_all_read(piece: &Piece) -> bool
    ensures { IsTrue result ↔ (piece.now ≡ Piece.InputEmpty) }
{
    matches!(piece, Piece::InputEmpty)
}

/// Returns the decoder that the storage represents, if its count isn't 0.
#[inline(never)]
#[tactic(auto, using(crate::proofs::StateLemmas::pending_again))]
fn restored_pending(state: EncodingUtf8Decoder) -> Utf8Decoder
    ensures represented { Represents state result }
{
    if state.count > MAX_PENDING {
        return Utf8Decoder::new_inner();
    }
    let mut decoder = Utf8Decoder::new_inner();
    let count = usize::from(state.count);
    let (piece, _) = decoder.decode_borrowed_raw(&state.pending[..count], false);
    if is_all_read(&piece) {
        return decoder;
    }
    Utf8Decoder::new_inner()
}

/// Returns the decoder that the storage represents. In most calls nothing is pending, and then no call is needed.
#[inline(always)]
pub(crate) fn restored(state: EncodingUtf8Decoder) -> Utf8Decoder
    ensures represented { Represents state result }
{
    if state.count == 0 {
        return Utf8Decoder::new_inner();
    }
    restored_pending(state)
}

/// Returns the storage of a decoder.
#[inline(always)]
pub(crate) fn stored(decoder: &Utf8Decoder) -> EncodingUtf8Decoder
    ensures { Represents result decoder.now }
{
    let (pending, count) = decoder.pending();
    let [first, second, third, _] = pending;
    EncodingUtf8Decoder {
        pending: [first, second, third],
        count: count as u8,
    }
}

/// What ended a call, and the length of the malformed sequence if it was one.
#[derive(Clone, Copy)]
pub(crate) struct Ended {
    pub(crate) result: u8,
    pub(crate) malformed_length: u8,
}

/// Returns what ended a call as numbers.
pub(crate) fn numbers(ended: &DecoderResult) -> Ended
    ensures { IsCodeOf ended.now result.result result.malformed_length }
{
    let (result, malformed_length) = match *ended {
        DecoderResult::InputEmpty => (0, 0),
        DecoderResult::OutputFull => (1, 0),
        DecoderResult::Malformed(count, _) => (2, count),
    };
    Ended {
        result,
        malformed_length,
    }
}

/// Returns the result of a call as numbers.
fn decoded(ended: DecoderResult, read: usize, written: usize) -> EncodingDecodeResult
    ensures reported { IsCodeOf ended result.result result.malformed_length }
    ensures counts { (result.read ≡ read) × (result.written ≡ written) }
{
    let Ended {
        result,
        malformed_length,
    } = numbers(&ended);
    EncodingDecodeResult {
        read,
        written,
        result,
        malformed_length,
    }
}

/// Initializes a decoder with nothing pending.
#[unsafe(no_mangle)]
pub extern "C" fn encoding_text_utf8_decoder_new(decoder: &mut EncodingUtf8Decoder)
    ensures { Represents decoder.new [] }
{
    *decoder = EncodingUtf8Decoder {
        pending: [0; 3],
        count: 0,
    };
}

/// Returns whether nothing is pending.
#[unsafe(no_mangle)]
pub extern "C" fn encoding_text_utf8_decoder_in_neutral_state(decoder: &EncodingUtf8Decoder) -> bool
    ensures { (p : List ℕ) × Represents decoder.now p × (IsTrue result ↔ (p ≡ [])) }
{
    restored(*decoder).in_neutral_state()
}

/// Returns the length in code units of a destination that is large enough for the next `byte_length` bytes in UTF-16,
/// also with U+FFFD for each report. Returns `usize::MAX` if the length reaches or exceeds it.
#[unsafe(no_mangle)]
pub extern "C" fn encoding_text_utf8_decoder_max_utf16_buffer_length(
    decoder: &EncodingUtf8Decoder,
    byte_length: usize,
) -> usize
    ensures { (p : List ℕ) × Represents decoder.now p
        × (result ≡ min (max_utf16_length byte_length (length p)) usize.MAX) }
{
    let inner = restored(*decoder);
    match inner.max_utf16_buffer_length(byte_length) {
        Some(room) => room,
        None => usize::MAX,
    }
}

/// Returns the length in bytes of a destination that is large enough for the next `byte_length` bytes in UTF-8, if
/// nothing is written for reports. Returns `usize::MAX` if the length reaches or exceeds it.
#[unsafe(no_mangle)]
pub extern "C" fn encoding_text_utf8_decoder_max_utf8_buffer_length_without_replacement(
    decoder: &EncodingUtf8Decoder,
    byte_length: usize,
) -> usize
    ensures { (p : List ℕ) × Represents decoder.now p
        × (result ≡ min (max_utf8_length byte_length (length p)) usize.MAX) }
{
    let inner = restored(*decoder);
    match inner.max_utf8_buffer_length_without_replacement(byte_length) {
        Some(room) => room,
        None => usize::MAX,
    }
}

/// Returns the length in bytes of a destination that is large enough for the next `byte_length` bytes in UTF-8, with
/// U+FFFD for each report. Returns `usize::MAX` if the length reaches or exceeds it.
#[unsafe(no_mangle)]
pub extern "C" fn encoding_text_utf8_decoder_max_utf8_buffer_length(
    decoder: &EncodingUtf8Decoder,
    byte_length: usize,
) -> usize
    ensures { (p : List ℕ) × Represents decoder.now p
        × (result ≡ min (max_utf8_length_with_replacement byte_length (length p)) usize.MAX) }
{
    let inner = restored(*decoder);
    match inner.max_utf8_buffer_length(byte_length) {
        Some(room) => room,
        None => usize::MAX,
    }
}

/// Decodes the next bytes to UTF-16. `last` says that no byte follows `src`. The rest of `dst` is unchanged.
#[unsafe(no_mangle)]
pub extern "C" fn encoding_text_utf8_decoder_decode_to_utf16(
    decoder: &mut EncodingUtf8Decoder,
    src: &[u8],
    dst: &mut [u16],
    last: bool,
) -> EncodingDecodeResult
    ensures call { DecoderCall decoder.old decoder.new result.result result.malformed_length
        (λ p ended q.
        DecodeStepInto encode_utf16 2 p src.now dst.old dst.new last ended
        result.read result.written q
        × Suffices max_utf16_length p src.now (length dst.old) ended result.read result.written q
        × SufficesReplacing max_utf16_length 1 p src.now
        (length dst.old) ended result.read result.written q) }
    ensures progress { 0 < length src.now → 2 ≤ length dst.old
        → (0 < result.read) ⊎ (result.result ≡ 2) }
{
    let mut inner = restored(*decoder);
    let (ended, read, written) = inner.decode_to_utf16_raw(src, dst, last);
    *decoder = stored(&inner);
    decoded(ended, read, written)
}

/// Decodes the next bytes to UTF-8. `last` says that no byte follows `src`. The rest of `dst` is unchanged.
#[unsafe(no_mangle)]
pub extern "C" fn encoding_text_utf8_decoder_decode_to_utf8(
    decoder: &mut EncodingUtf8Decoder,
    src: &[u8],
    dst: &mut [u8],
    last: bool,
) -> EncodingDecodeResult
    ensures call { DecoderCall decoder.old decoder.new result.result result.malformed_length
        (λ p ended q.
        DecodeStepInto encode_utf8 4 p src.now dst.old dst.new last ended
        result.read result.written q
        × Suffices max_utf8_length p src.now (length dst.old) ended result.read result.written q
        × Suffices max_utf8_length_with_replacement p src.now
        (length dst.old) ended result.read result.written q
        × SufficesReplacing max_utf8_length_with_replacement 3 p src.now
        (length dst.old) ended result.read result.written q) }
    ensures progress { 0 < length src.now → 4 ≤ length dst.old
        → (0 < result.read) ⊎ (result.result ≡ 2) }
{
    let mut inner = restored(*decoder);
    let (ended, read, written) = inner.decode_to_utf8_raw(src, dst, last);
    *decoder = stored(&inner);
    decoded(ended, read, written)
}

/// Decodes the next bytes without a destination. Returns the first piece, and how many bytes were read.
#[unsafe(no_mangle)]
pub extern "C" fn encoding_text_utf8_decoder_decode_borrowed(
    decoder: &mut EncodingUtf8Decoder,
    src: &[u8],
    last: bool,
) -> EncodingPiece
    ensures { PieceCall decoder.old decoder.new result
        (λ p returned q. BorrowedDecodeStep p src.now last returned result.read q) }
{
    let mut inner = restored(*decoder);
    let (piece, read) = inner.decode_borrowed_raw(src, last);
    *decoder = stored(&inner);
    let (kind, character, malformed_length) = match piece {
        Piece::Text(_) => (0, 0, 0),
        Piece::Char(character) => (1, u32::from(character), 0),
        Piece::Malformed(count) => (2, 0, count),
        Piece::InputEmpty => (3, 0, 0),
    };
    EncodingPiece {
        read,
        character,
        kind,
        malformed_length,
    }
}
