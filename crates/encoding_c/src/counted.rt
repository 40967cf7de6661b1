//! The conversions from UTF-16 that count the unpaired surrogates they replace.

ghost use Rattle.std.specs.Prelude.{◌≡◌, ◌+◌, ◌*◌, ◌≤◌, length, take, IsUtf8};
ghost use Rattle.encoding_definitions.specs.Clearing.{WritesAndClears};
ghost use Rattle.encoding_definitions.specs.Prefixes.{WritesPrefix};
ghost use Rattle.encoding_definitions.specs.Surrogates.{HasUnpaired};
ghost use Rattle.encoding_definitions.specs.Utf16.{IsUtf8OfLongestPrefix};
ghost use Rattle.encoding_text.specs.Counted.{ReplacesIn};
ghost use Rattle.encoding_text.specs.Encoding.{EncodeStep, TextEncodeStep};
ghost use Rattle.encoding_c.specs.States.{EncoderCall};

use crate::encoder::{EncodingUtf8Encoder, number, restored, stored, unit_to_keep};
use crate::status::{INVALID_ARGUMENT, INVALID_ARGUMENT_U8, as_text};
use crate::stream_decoder::EncodingCoderResult;
use crate::text_destinations::is_text;
use encoding_text::mem;
use encoding_text::utf_8::EncoderResult;

/// The number of code units that were read, of bytes that were written, and of unpaired surrogates that were replaced.
#[repr(C)]
#[derive(Clone, Copy)]
pub struct EncodingCountedProgress {
    pub read: usize,
    pub written: usize,
    pub replaced: usize,
}

/// Converts the longest prefix of whole characters that fits from UTF-16 to UTF-8, and counts the unpaired surrogates
/// in it: U+FFFD is written for each.
#[unsafe(no_mangle)]
pub extern "C" fn encoding_text_mem_convert_utf16_to_utf8_partial_with_count(
    src: &[u16],
    dst: &mut [u8],
) -> EncodingCountedProgress
    ensures longest { IsUtf8OfLongestPrefix src.now (length dst.old) result.read
        (take result.written dst.new) }
    ensures unchanged_after { WritesPrefix dst.old dst.new result.written
        (take result.written dst.new) }
    ensures replaced { HasUnpaired (take result.read src.now) result.replaced }
{
    let (read, written, replaced) = mem::convert_utf16_to_utf8_partial_with_count(src, dst);
    EncodingCountedProgress {
        read,
        written,
        replaced,
    }
}

/// Converts the longest prefix of whole characters that fits from UTF-16 into a text, and counts the unpaired
/// surrogates in it: U+FFFD is written for each. The continuation bytes directly after what is written become zero.
/// Returns `INVALID_ARGUMENT` for the first two counts if `dst` is ill-formed.
#[unsafe(no_mangle)]
pub extern "C" fn encoding_text_mem_convert_utf16_to_str_partial_with_count(
    src: &[u16],
    dst: &mut [u8],
) -> EncodingCountedProgress
    ensures longest { IsUtf8 dst.old
        → IsUtf8OfLongestPrefix src.now (length dst.old) result.read (take result.written dst.new) }
    ensures unchanged_after { IsUtf8 dst.old
        → WritesAndClears 0 dst.old dst.new result.written (take result.written dst.new) }
    ensures text { IsUtf8 dst.old → IsUtf8 dst.new }
    ensures replaced { IsUtf8 dst.old → HasUnpaired (take result.read src.now) result.replaced }
    ensures invalid_argument { ¬ (IsUtf8 dst.old)
        → (result.read ≡ usize.MAX) × (result.written ≡ usize.MAX) × (result.replaced ≡ 0)
        × (dst.new ≡ dst.old) }
{
    if !is_text(dst) {
        return EncodingCountedProgress {
            read: INVALID_ARGUMENT,
            written: INVALID_ARGUMENT,
            replaced: 0,
        };
    }
    let (read, written, replaced) = mem::convert_utf16_to_str_partial_with_count(src, dst);
    EncodingCountedProgress {
        read,
        written,
        replaced,
    }
}

/// Encodes the pending surrogate, then `src`, and counts the unpaired surrogates that it replaced. `last` marks the
/// last call. The rest of `dst` is unchanged.
#[tactic(auto, using(crate::proofs::StateLemmas::unit_after))]
#[unsafe(no_mangle)]
pub extern "C" fn encoding_text_utf8_encoder_encode_from_utf16_with_count(
    encoder: &mut EncodingUtf8Encoder,
    src: &[u16],
    dst: &mut [u8],
    last: bool,
) -> EncodingCoderResult
    ensures call { EncoderCall encoder.old encoder.new result.result (λ surrogate ended later.
        EncodeStep surrogate src.now (length dst.old) last ended result.read
        (take result.written dst.new) later
        × (3 * (length src.now + length surrogate) ≤ length dst.old
        → ended ≡ EncoderResult.InputEmpty)
        × ReplacesIn surrogate src.now result.read later result.replaced) }
    ensures within { result.read ≤ length src.now }
    ensures unchanged_after { WritesPrefix dst.old dst.new result.written
        (take result.written dst.new) }
{
    let before = *encoder;
    let mut inner = restored(before);
    let (ended, read, written, replaced) = inner.encode_from_utf16_with_count(src, dst, last);
    let unit = unit_to_keep(&ended, src, before.surrogate);
    *encoder = stored(&inner, unit);
    EncodingCoderResult {
        read,
        written,
        replaced,
        result: number(&ended),
    }
}

/// Encodes U+FFFD for a pending surrogate, then the text, and returns as `replaced` whether it wrote that U+FFFD. The
/// rest of `dst` is unchanged. `result` is `INVALID_ARGUMENT_U8` if the bytes are ill-formed: then nothing is read or
/// written.
#[unsafe(no_mangle)]
pub extern "C" fn encoding_text_utf8_encoder_encode_from_utf8_with_count(
    encoder: &mut EncodingUtf8Encoder,
    src: &[u8],
    dst: &mut [u8],
    last: bool,
) -> EncodingCoderResult
    ensures call { IsUtf8 src.now
        → EncoderCall encoder.old encoder.new result.result (λ surrogate ended later.
        TextEncodeStep surrogate src.now (length dst.old) ended result.read
        (take result.written dst.new) later
        × (length src.now + 3 * length surrogate ≤ length dst.old
        → ended ≡ EncoderResult.InputEmpty)
        × (result.replaced + length later ≡ length surrogate)) }
    ensures within { result.read ≤ length src.now }
    ensures unchanged_after { WritesPrefix dst.old dst.new result.written
        (take result.written dst.new) }
    ensures invalid_argument { ¬ (IsUtf8 src.now)
        → (result.result ≡ u8.MAX) × (result.read ≡ 0) × (result.written ≡ 0)
        × (result.replaced ≡ 0) × (encoder.new ≡ encoder.old) }
{
    let Some(text) = as_text(src) else {
        return EncodingCoderResult {
            read: 0,
            written: 0,
            replaced: 0,
            result: INVALID_ARGUMENT_U8,
        };
    };
    let before = *encoder;
    let mut inner = restored(before);
    let (ended, read, written, replaced) = inner.encode_from_utf8_with_count(text, dst, last);
    *encoder = stored(&inner, before.surrogate);
    EncodingCoderResult {
        read,
        written,
        replaced,
        result: number(&ended),
    }
}
