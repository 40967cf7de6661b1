//! The streaming decoder of UTF-8, UTF-16LE and UTF-16BE, with byte order marks and U+FFFD for malformed sequences:
//! Encoding Standard, "decode". Between two calls it is in the caller's storage.

ghost use Rattle.std.specs.Prelude.{◌≡◌, ◌≤◌, ◌<◌, ◌+◌, ◌↔◌, [], None, Some, length, min, take, encode_utf8, IsTrue};
ghost use Rattle.std.specs.Str.{IsAscii};
ghost use Rattle.std.specs.Char.Escape.{encode_utf16};
ghost use Rattle.encoding_definitions.specs.Prefixes.{IsLongestPrefix};
ghost use Rattle.encoding_streams.specs.Decoders.{DecoderState, IsReplacingCall, IsReportingCall};
ghost use Rattle.encoding_streams.specs.Decoders.{SufficesBetweenReports, SufficesReplacing, SufficesReporting};
ghost use Rattle.encoding_streams.specs.Decoders.{max_utf16_length_in, max_utf8_length_in};
ghost use Rattle.encoding_streams.specs.Decoders.{max_utf8_length_with_replacement_in, queried};
ghost use Rattle.encoding_streams.specs.ExactCalls.{AreReportLengths, IsExactCall, IsExactReplacingCall};
ghost use Rattle.encoding_streams.specs.Marks.{found_mark, mark};
ghost use Rattle.encoding_c.specs.DecoderStates.{IsEncodingNumber, IsBomNumber, IsCoderCodeOf, ReplacingCall};
ghost use Rattle.encoding_c.specs.DecoderStates.{ReportingCall, RepresentsDecoder};

use crate::decoder::MAX_PENDING;
use crate::status::INVALID_ARGUMENT;
use crate::utf16_decoder::{EncodingDecoderResult, decoded};
use encoding_streams::decoder::Decoder;
use encoding_streams::encoding::{BomHandling, CoderResult, Encoding};

/// A decoder between two calls: the pending bytes, their count, the number of the encoding, and the number of the marks
/// that are looked for. The bytes after the pending ones have no meaning, nor has a count above three.
#[repr(C)]
#[derive(Clone, Copy)]
pub struct EncodingDecoder {
    pub pending: [u8; 3],
    pub count: u8,
    pub encoding: u8,
    pub bom: u8,
}

/// What a call returns that replaces malformed sequences: how much it read and wrote, the number of these sequences,
/// and what ended it.
#[repr(C)]
#[derive(Clone, Copy)]
pub struct EncodingCoderResult {
    pub read: usize,
    pub written: usize,
    pub replaced: usize,
    pub result: u8,
}

/// The length of a byte order mark, 0 if there is none, and the number of its encoding.
#[repr(C)]
#[derive(Clone, Copy)]
pub struct EncodingBom {
    pub length: usize,
    pub encoding: u8,
}

const UTF_8: u8 = 0;

const UTF_16LE: u8 = 1;

const UTF_16BE: u8 = 2;

const BOM_OFF: u8 = 0;

const BOM_REMOVE: u8 = 1;

const BOM_SNIFF: u8 = 2;

/// Returns the encoding for a number.
fn encoding_of(number: u8) -> Encoding
    ensures { IsEncodingNumber number result }
{
    if number == UTF_8 {
        return Encoding::Utf8;
    }
    if number == UTF_16LE {
        Encoding::Utf16Le
    } else {
        Encoding::Utf16Be
    }
}

/// Returns the number of an encoding.
fn encoding_number(encoding: Encoding) -> u8
    ensures number { IsEncodingNumber result encoding }
    ensures at_most_two { result ≤ 2 }
{
    match encoding {
        Encoding::Utf8 => UTF_8,
        Encoding::Utf16Le => UTF_16LE,
        Encoding::Utf16Be => UTF_16BE,
    }
}

/// Returns which marks are looked for, for a number.
fn bom_of(number: u8) -> BomHandling
    ensures { IsBomNumber number result }
{
    if number == BOM_OFF {
        return BomHandling::Off;
    }
    if number == BOM_REMOVE {
        BomHandling::Remove
    } else {
        BomHandling::Sniff
    }
}

/// Returns the number for the marks that are looked for.
fn bom_number(bom: BomHandling) -> u8
    ensures { IsBomNumber result bom }
{
    match bom {
        BomHandling::Off => BOM_OFF,
        BomHandling::Remove => BOM_REMOVE,
        BomHandling::Sniff => BOM_SNIFF,
    }
}

/// Returns the decoder that the storage represents.
fn restored(state: &EncodingDecoder) -> Decoder
    ensures { RepresentsDecoder state.now result }
{
    // most calls continue a stream of UTF-8 with nothing pending
    if state.count == 0 && state.encoding == UTF_8 && state.bom == BOM_OFF {
        return Encoding::Utf8.new_decoder_without_bom_handling();
    }
    let encoding = encoding_of(state.encoding);
    let bom = bom_of(state.bom);
    if state.count > MAX_PENDING {
        return Decoder::from_state(encoding, bom, &[]);
    }
    Decoder::from_state(encoding, bom, &state.pending[..usize::from(state.count)])
}

/// Returns the storage of a decoder.
fn stored(decoder: &Decoder) -> EncodingDecoder
    ensures { RepresentsDecoder result decoder.now }
{
    let (pending, count) = decoder.pending();
    let [first, second, third, _] = pending;
    EncodingDecoder {
        pending: [first, second, third],
        count: count as u8,
        encoding: encoding_number(decoder.encoding()),
        bom: bom_number(decoder.bom_handling()),
    }
}

/// Returns the number for why a call ended.
fn coder_number(ended: CoderResult) -> u8
    ensures { IsCoderCodeOf ended result }
{
    match ended {
        CoderResult::InputEmpty => 0,
        CoderResult::OutputFull => 1,
    }
}

/// Returns the byte order mark that the bytes start with: its length, 0 if there is none, and the number of its
/// encoding.
#[unsafe(no_mangle)]
pub extern "C" fn encoding_text_for_bom(src: &[u8]) -> EncodingBom
    ensures found { (e : Encoding) → found_mark BomHandling.Sniff Encoding.Utf8 src.now ≡ Some e
        → (result.length ≡ length (mark e)) × IsEncodingNumber result.encoding e }
    ensures none { found_mark BomHandling.Sniff Encoding.Utf8 src.now ≡ None
        → (result.length ≡ 0) × (result.encoding ≡ 0) }
{
    match Encoding::for_bom(src) {
        Some((encoding, length)) => EncodingBom {
            length,
            encoding: encoding_number(encoding),
        },
        None => EncodingBom {
            length: 0,
            encoding: UTF_8,
        },
    }
}

/// Initializes a decoder of an encoding that looks for byte order marks, with nothing pending.
#[unsafe(no_mangle)]
pub extern "C" fn encoding_text_decoder_new(decoder: &mut EncodingDecoder, encoding: u8, bom: u8)
    ensures { (e : Encoding) (b : BomHandling) → IsEncodingNumber encoding e → IsBomNumber bom b
        → RepresentsDecoder decoder.new (record { encoding = e; bom = b; pending = [] }) }
{
    *decoder = EncodingDecoder {
        pending: [0; 3],
        count: 0,
        encoding: encoding.min(UTF_16BE),
        bom: bom.min(BOM_SNIFF),
    };
}

/// Returns the number of the encoding: that of a mark, once one was read.
#[unsafe(no_mangle)]
pub extern "C" fn encoding_text_decoder_encoding(decoder: &EncodingDecoder) -> u8
    ensures { (d : DecoderState) × RepresentsDecoder decoder.now d
        × IsEncodingNumber result d.encoding × (result ≤ 2) }
{
    encoding_number(restored(decoder).encoding())
}

/// Returns whether nothing is pending and no mark is looked for.
#[unsafe(no_mangle)]
pub extern "C" fn encoding_text_decoder_in_neutral_state(decoder: &EncodingDecoder) -> bool
    ensures { (d : DecoderState) × RepresentsDecoder decoder.now d
        × (IsTrue result ↔ ((d.bom ≡ BomHandling.Off) × (d.pending ≡ []))) }
{
    let inner = restored(decoder);
    let (_, count) = inner.pending();
    count == 0 && bom_number(inner.bom_handling()) == BOM_OFF
}

/// Returns the length in code units of a destination that is large enough for the next `byte_length` bytes in UTF-16,
/// also with U+FFFD for each malformed sequence. Returns `usize::MAX` if that length, or the sum of the bytes, the
/// pending ones and one, reaches or exceeds it.
#[unsafe(no_mangle)]
pub extern "C" fn encoding_text_decoder_max_utf16_buffer_length(
    decoder: &EncodingDecoder,
    byte_length: usize,
) -> usize
    ensures { (d : DecoderState) × RepresentsDecoder decoder.now d
        × (byte_length + length d.pending + 1 ≤ usize.MAX
        → result ≡ queried max_utf16_length_in d byte_length)
        × (usize.MAX < byte_length + length d.pending + 1 → result ≡ usize.MAX) }
{
    let inner = restored(decoder);
    match inner.max_utf16_buffer_length(byte_length) {
        Some(room) => room,
        None => INVALID_ARGUMENT,
    }
}

/// Returns the length in bytes of a destination that is large enough for the next `byte_length` bytes in UTF-8, with
/// U+FFFD for each malformed sequence. Returns `usize::MAX` if the length reaches or exceeds it.
#[unsafe(no_mangle)]
pub extern "C" fn encoding_text_decoder_max_utf8_buffer_length(
    decoder: &EncodingDecoder,
    byte_length: usize,
) -> usize
    ensures { (d : DecoderState) × RepresentsDecoder decoder.now d
        × (result ≡ min (queried max_utf8_length_with_replacement_in d byte_length) usize.MAX) }
{
    let inner = restored(decoder);
    match inner.max_utf8_buffer_length(byte_length) {
        Some(room) => room,
        None => INVALID_ARGUMENT,
    }
}

/// Returns the length in bytes of a destination that is large enough for the next `byte_length` bytes in UTF-8, if
/// nothing is written for malformed sequences. Returns `usize::MAX` if the length reaches or exceeds it.
#[unsafe(no_mangle)]
pub extern "C" fn encoding_text_decoder_max_utf8_buffer_length_without_replacement(
    decoder: &EncodingDecoder,
    byte_length: usize,
) -> usize
    ensures { (d : DecoderState) × RepresentsDecoder decoder.now d
        × (result ≡ min (queried max_utf8_length_in d byte_length) usize.MAX) }
{
    let inner = restored(decoder);
    match inner.max_utf8_buffer_length_without_replacement(byte_length) {
        Some(room) => room,
        None => INVALID_ARGUMENT,
    }
}

/// Returns the length of the longest ASCII prefix of the next bytes, each of which is one character of that number.
/// Returns `usize::MAX` unless the encoding is UTF-8, nothing is pending and no mark is looked for.
#[unsafe(no_mangle)]
pub extern "C" fn encoding_text_decoder_latin1_byte_compatible_up_to(
    decoder: &EncodingDecoder,
    src: &[u8],
) -> usize
    ensures { (d : DecoderState) × RepresentsDecoder decoder.now d
        × ((d.encoding ≡ Encoding.Utf8) × (d.bom ≡ BomHandling.Off) × (d.pending ≡ [])
        → IsLongestPrefix IsAscii src.now result)
        × (((d.encoding ≡ Encoding.Utf8) × (d.bom ≡ BomHandling.Off) × (d.pending ≡ []) → ⊥)
        → result ≡ usize.MAX) }
{
    let inner = restored(decoder);
    match inner.latin1_byte_compatible_up_to(src) {
        Some(length) => length,
        None => INVALID_ARGUMENT,
    }
}

/// Decodes the next bytes to UTF-16, with U+FFFD for each malformed sequence. `last` says that no byte follows `src`.
/// The rest of `dst` is unchanged.
#[unsafe(no_mangle)]
pub extern "C" fn encoding_text_decoder_decode_to_utf16(
    decoder: &mut EncodingDecoder,
    src: &[u8],
    dst: &mut [u16],
    last: bool,
) -> EncodingCoderResult
    ensures { ReplacingCall decoder.old decoder.new result (λ d ended e.
        IsReplacingCall encode_utf16 2 d src.now dst.old dst.new last ended
        result.read result.written result.replaced e
        × IsExactReplacingCall encode_utf16 2 d src.now (length dst.old) last ended
        result.read (take result.written dst.new) result.replaced e
        × SufficesReplacing max_utf16_length_in d src.now (length dst.old) last ended
        result.read result.written e) }
{
    let mut inner = restored(decoder);
    let (ended, read, written, replaced) = inner.decode_to_utf16(src, dst, last);
    *decoder = stored(&inner);
    EncodingCoderResult {
        read,
        written,
        replaced,
        result: coder_number(ended),
    }
}

/// Decodes the next bytes to UTF-16. `last` says that no byte follows `src`. The rest of `dst` is unchanged.
#[unsafe(no_mangle)]
pub extern "C" fn encoding_text_decoder_decode_to_utf16_without_replacement(
    decoder: &mut EncodingDecoder,
    src: &[u8],
    dst: &mut [u16],
    last: bool,
) -> EncodingDecoderResult
    ensures { ReportingCall decoder.old decoder.new result (λ d ended e.
        IsReportingCall encode_utf16 2 d src.now dst.old dst.new last ended
        result.read result.written e
        × IsExactCall encode_utf16 2 d src.now (length dst.old) last ended
        result.read (take result.written dst.new) e × AreReportLengths ended
        × SufficesReporting max_utf16_length_in d src.now (length dst.old) last ended
        result.read result.written e
        × SufficesBetweenReports max_utf16_length_in 1 d src.now (length dst.old) last ended
        result.read result.written e) }
{
    let mut inner = restored(decoder);
    let (ended, read, written) = inner.decode_to_utf16_without_replacement(src, dst, last);
    *decoder = stored(&inner);
    decoded(ended, read, written)
}

/// Decodes the next bytes to UTF-8, with U+FFFD for each malformed sequence. `last` says that no byte follows `src`.
/// The rest of `dst` is unchanged.
#[unsafe(no_mangle)]
pub extern "C" fn encoding_text_decoder_decode_to_utf8(
    decoder: &mut EncodingDecoder,
    src: &[u8],
    dst: &mut [u8],
    last: bool,
) -> EncodingCoderResult
    ensures { ReplacingCall decoder.old decoder.new result (λ d ended e.
        IsReplacingCall encode_utf8 4 d src.now dst.old dst.new last ended
        result.read result.written result.replaced e
        × IsExactReplacingCall encode_utf8 4 d src.now (length dst.old) last ended
        result.read (take result.written dst.new) result.replaced e
        × SufficesReplacing max_utf8_length_with_replacement_in d src.now (length dst.old) last
        ended result.read result.written e) }
{
    let mut inner = restored(decoder);
    let (ended, read, written, replaced) = inner.decode_to_utf8(src, dst, last);
    *decoder = stored(&inner);
    EncodingCoderResult {
        read,
        written,
        replaced,
        result: coder_number(ended),
    }
}

/// Decodes the next bytes to UTF-8. `last` says that no byte follows `src`. The rest of `dst` is unchanged.
#[unsafe(no_mangle)]
pub extern "C" fn encoding_text_decoder_decode_to_utf8_without_replacement(
    decoder: &mut EncodingDecoder,
    src: &[u8],
    dst: &mut [u8],
    last: bool,
) -> EncodingDecoderResult
    ensures { ReportingCall decoder.old decoder.new result (λ d ended e.
        IsReportingCall encode_utf8 4 d src.now dst.old dst.new last ended
        result.read result.written e
        × IsExactCall encode_utf8 4 d src.now (length dst.old) last ended
        result.read (take result.written dst.new) e × AreReportLengths ended
        × SufficesReporting max_utf8_length_in d src.now (length dst.old) last ended
        result.read result.written e
        × SufficesBetweenReports max_utf8_length_with_replacement_in (length (encode_utf8 0xFFFD)) d
        src.now (length dst.old) last ended result.read result.written e) }
{
    let mut inner = restored(decoder);
    let (ended, read, written) = inner.decode_to_utf8_without_replacement(src, dst, last);
    *decoder = stored(&inner);
    decoded(ended, read, written)
}
