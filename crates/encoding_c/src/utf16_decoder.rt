//! The streaming decoder of UTF-16LE and UTF-16BE: Encoding Standard, section 14.2, shared UTF-16 decoder. Between two
//! calls it is in the caller's storage.

ghost use Rattle.std.specs.Prelude.{◌≡◌, ℕ, ◌<◌, ◌≤◌, ◌↔◌, ◌⊎◌, ◌+◌, List, [], ◌++◌, length, take, min, encode_utf8};
ghost use Rattle.std.specs.Prelude.{IsTrue, IsFalse};
ghost use Rattle.std.specs.Char.Escape.{encode_utf16};
ghost use Rattle.encoding_text.specs.Decoding.{Suffices};
ghost use Rattle.encoding_text.specs.declared.utf_16.ByteOrder.TheVariants.{LittleEndian, BigEndian};
ghost use Rattle.encoding_streams.specs.Utf16Parts.{IsPendingUtf16};
ghost use Rattle.encoding_streams.specs.Utf16Decoding.{DecodeUtf16StepInto, SufficesReplacingUtf16, Utf16State};
ghost use Rattle.encoding_streams.specs.Utf16Decoding.{max_utf16_length_from_utf16, max_utf8_length_from_utf16};
ghost use Rattle.encoding_c.specs.States.{IsByteOrder, IsUtf16CodeOf, RepresentsUtf16, Utf16Call};

use crate::decoder::{Ended, numbers};
use encoding_streams::utf16_decoder::Utf16Decoder;
use encoding_text::decoder::DecoderResult;
use encoding_text::utf_16::ByteOrder;

/// A decoder between two calls: the pending bytes, their count, and 0 for UTF-16LE, any other number for UTF-16BE. The
/// bytes after the pending ones have no meaning. A count and bytes that are no start of a character represent a decoder
/// with nothing pending.
#[repr(C)]
#[derive(Clone, Copy)]
pub struct EncodingUtf16Decoder {
    pub pending: [u8; 3],
    pub count: u8,
    pub big_endian: u8,
}

/// What a decode call returns: how much it read and wrote, what ended it, the length of the malformed sequence, and the
/// number of bytes read after that sequence.
#[repr(C)]
#[derive(Clone, Copy)]
pub struct EncodingDecoderResult {
    pub read: usize,
    pub written: usize,
    pub result: u8,
    pub malformed_length: u8,
    pub read_after: u8,
}

/// Returns the byte order for a number.
fn byte_order(big_endian: u8) -> ByteOrder
    ensures { IsByteOrder big_endian result }
{
    if big_endian == 0 {
        ByteOrder::LittleEndian
    } else {
        ByteOrder::BigEndian
    }
}

/// Returns four bytes that start with these.
#[inline(always)]
fn padded(pending: [u8; 3]) -> [u8; 4]
    ensures bytes { take 3 result ≡ pending }
    ensures count { length result ≡ 4 }
{
    let [first, second, third] = pending;
    [first, second, third, 0]
}

/// Returns the decoder that the storage represents, if its count isn't 0.
#[inline(never)]
fn restored_pending(state: EncodingUtf16Decoder) -> Utf16Decoder
    ensures { RepresentsUtf16 state result }
{
    let order = byte_order(state.big_endian);
    let count = usize::from(state.count);
    Utf16Decoder::from_pending(order, padded(state.pending), count)
}

/// Returns the decoder that the storage represents. In most calls nothing is pending, and then no call is needed.
#[inline(always)]
pub(crate) fn restored(state: EncodingUtf16Decoder) -> Utf16Decoder
    ensures represented { RepresentsUtf16 state result }
{
    if state.count == 0 {
        return Utf16Decoder::new(byte_order(state.big_endian));
    }
    restored_pending(state)
}

/// Stores a decoder after its call. In most calls nothing is pending before and after, and then the storage stays as it
/// is.
#[inline(always)]
fn store(storage: &mut EncodingUtf16Decoder, decoder: &Utf16Decoder)
    requires order { IsByteOrder storage.old.big_endian decoder.now.order }
    ensures { RepresentsUtf16 storage.new decoder.now }
{
    let (pending, count) = decoder.pending();
    if storage.count == 0 && count == 0 {
        return;
    }
    let [first, second, third, _] = pending;
    *storage = EncodingUtf16Decoder {
        pending: [first, second, third],
        count: count as u8,
        big_endian: storage.big_endian,
    };
}

/// Returns the result of a call as numbers.
pub(crate) fn decoded(ended: DecoderResult, read: usize, written: usize) -> EncodingDecoderResult
    ensures reported { IsUtf16CodeOf ended result.result result.malformed_length result.read_after }
    ensures counts { (result.read ≡ read) × (result.written ≡ written) }
{
    let Ended {
        result,
        malformed_length,
    } = numbers(&ended);
    let read_after = match ended {
        DecoderResult::Malformed(_, second) => second,
        _ => 0,
    };
    EncodingDecoderResult {
        read,
        written,
        result,
        malformed_length,
        read_after,
    }
}

/// Initializes a decoder of UTF-16LE, or of UTF-16BE if `big_endian` is true, with nothing pending.
#[unsafe(no_mangle)]
pub extern "C" fn encoding_text_utf16_decoder_new(
    decoder: &mut EncodingUtf16Decoder,
    big_endian: bool,
)
    ensures little_endian { IsFalse big_endian
        → RepresentsUtf16 decoder.new (record { order = LittleEndian; pending = [] }) }
    ensures big_endian { IsTrue big_endian
        → RepresentsUtf16 decoder.new (record { order = BigEndian; pending = [] }) }
{
    *decoder = EncodingUtf16Decoder {
        pending: [0; 3],
        count: 0,
        big_endian: u8::from(big_endian),
    };
}

/// Returns whether nothing is pending.
#[unsafe(no_mangle)]
pub extern "C" fn encoding_text_utf16_decoder_in_neutral_state(
    decoder: &EncodingUtf16Decoder,
) -> bool
    ensures { (d : Utf16State) × RepresentsUtf16 decoder.now d
        × (IsTrue result ↔ (d.pending ≡ [])) }
{
    restored(*decoder).in_neutral_state()
}

/// Returns the length in code units of a destination that is large enough for the next `byte_length` bytes in UTF-16,
/// also with U+FFFD for each report. Returns `usize::MAX` if that length, or the sum that it is half of, exceeds it.
#[unsafe(no_mangle)]
pub extern "C" fn encoding_text_utf16_decoder_max_utf16_buffer_length(
    decoder: &EncodingUtf16Decoder,
    byte_length: usize,
) -> usize
    ensures { (d : Utf16State) × RepresentsUtf16 decoder.now d
        × (byte_length + length d.pending + 1 ≤ usize.MAX
        → result ≡ max_utf16_length_from_utf16 byte_length (length d.pending))
        × (usize.MAX < byte_length + length d.pending + 1 → result ≡ usize.MAX) }
{
    let inner = restored(*decoder);
    match inner.max_utf16_buffer_length(byte_length) {
        Some(room) => room,
        None => usize::MAX,
    }
}

/// Returns the length in bytes of a destination that is large enough for the next `byte_length` bytes in UTF-8, also
/// with U+FFFD for each report. Returns `usize::MAX` if the length reaches or exceeds it.
#[unsafe(no_mangle)]
pub extern "C" fn encoding_text_utf16_decoder_max_utf8_buffer_length(
    decoder: &EncodingUtf16Decoder,
    byte_length: usize,
) -> usize
    ensures { (d : Utf16State) × RepresentsUtf16 decoder.now d
        × (result ≡ min (max_utf8_length_from_utf16 byte_length (length d.pending)) usize.MAX) }
{
    let inner = restored(*decoder);
    match inner.max_utf8_buffer_length(byte_length) {
        Some(room) => room,
        None => usize::MAX,
    }
}

/// Returns the length in bytes of a destination that is large enough for the next `byte_length` bytes in UTF-8, if
/// nothing is written for reports. Returns `usize::MAX` if the length reaches or exceeds it.
#[unsafe(no_mangle)]
pub extern "C" fn encoding_text_utf16_decoder_max_utf8_buffer_length_without_replacement(
    decoder: &EncodingUtf16Decoder,
    byte_length: usize,
) -> usize
    ensures { (d : Utf16State) × RepresentsUtf16 decoder.now d
        × (result ≡ min (max_utf8_length_from_utf16 byte_length (length d.pending)) usize.MAX) }
{
    let inner = restored(*decoder);
    match inner.max_utf8_buffer_length_without_replacement(byte_length) {
        Some(room) => room,
        None => usize::MAX,
    }
}

/// Decodes the next bytes to UTF-16. `last` says that no byte follows `src`. The rest of `dst` is unchanged.
#[unsafe(no_mangle)]
pub extern "C" fn encoding_text_utf16_decoder_decode_to_utf16(
    decoder: &mut EncodingUtf16Decoder,
    src: &[u8],
    dst: &mut [u16],
    last: bool,
) -> EncodingDecoderResult
    ensures call { Utf16Call decoder.old decoder.new result (λ order p ended q.
        DecodeUtf16StepInto order encode_utf16 2 p src.now dst.old dst.new last ended
        result.read result.written q
        × Suffices max_utf16_length_from_utf16 p src.now (length dst.old) ended
        result.read result.written q
        × SufficesReplacingUtf16 max_utf16_length_from_utf16 1 p src.now (length dst.old) last ended
        result.read result.written q) }
    ensures progress { 0 < length src.now → 2 ≤ length dst.old
        → (0 < result.read) ⊎ (result.result ≡ 2) }
{
    let mut inner = restored(*decoder);
    let (ended, read, written) = inner.decode_to_utf16_raw(src, dst, last);
    store(decoder, &inner);
    decoded(ended, read, written)
}

/// Decodes the next bytes to UTF-8. `last` says that no byte follows `src`. The rest of `dst` is unchanged.
#[unsafe(no_mangle)]
pub extern "C" fn encoding_text_utf16_decoder_decode_to_utf8(
    decoder: &mut EncodingUtf16Decoder,
    src: &[u8],
    dst: &mut [u8],
    last: bool,
) -> EncodingDecoderResult
    ensures call { Utf16Call decoder.old decoder.new result (λ order p ended q.
        DecodeUtf16StepInto order encode_utf8 4 p src.now dst.old dst.new last ended
        result.read result.written q
        × Suffices max_utf8_length_from_utf16 p src.now (length dst.old) ended
        result.read result.written q
        × SufficesReplacingUtf16 max_utf8_length_from_utf16 3 p src.now (length dst.old) last ended
        result.read result.written q) }
    ensures progress { 0 < length src.now → 4 ≤ length dst.old
        → (0 < result.read) ⊎ (result.result ≡ 2) }
{
    let mut inner = restored(*decoder);
    let (ended, read, written) = inner.decode_to_utf8_raw(src, dst, last);
    store(decoder, &inner);
    decoded(ended, read, written)
}
