//! The decoders of one encoding each, as one.
ghost use Rattle.std.specs.Prelude.{◌≡◌, ◌↔◌, ℕ, ◌+◌, ◌<◌, ◌≤◌, [], List, length, take, IsTrue};
ghost use Rattle.std.specs.Char.{IsScalar};
ghost use Rattle.encoding_definitions.specs.Prefixes.{WritesPrefix};
ghost use Rattle.encoding_streams.specs.Decoders.{IsReportingCall, SufficesReporting, SufficesBetweenReports, decoding};
ghost use Rattle.encoding_streams.specs.Decoders.{max_utf16_length_in, max_utf8_length_in};
ghost use Rattle.encoding_streams.specs.Decoders.{max_utf8_length_with_replacement_in};
ghost use Rattle.encoding_streams.specs.declared.encoding.Encoding.{Encoding};
ghost use Rattle.encoding_streams.specs.DecoderSteps.{state_of};
ghost use Rattle.encoding_streams.specs.ExactCalls.{StepIn};

use crate::encoding::Encoding;
use crate::utf16_decoder::Utf16Decoder;
use crate::utf16_decoder::code_unit::CodeUnit;
use encoding_runs::laws::law_mixed_calls;
use encoding_text::decoder::{DecoderResult, Utf8Decoder};
use encoding_text::utf_16::ByteOrder;

/// A decoder of one encoding, which looks for no mark.
#[derive(Drop)]
pub(crate) enum Inner {
    OfUtf8(Utf8Decoder),
    OfUtf16(Utf16Decoder),
}

/// Writes code units at the start of `dst`.
fn put<U: Copy>(dst: &mut [U], units: &[U])
    requires fits { length units.now ≤ length dst.old }
    ensures { WritesPrefix dst.old dst.new (length units.now) units.now }
{
    dst[..units.len()].copy_from_slice(units);
}

impl Inner {
    /// Returns a decoder with nothing pending.
    #[inline(always)]
    pub(crate) fn new(encoding: Encoding) -> Inner
        ensures { state_of result ≡ decoding encoding [] }
    {
        match encoding {
            Encoding::Utf8 => Inner::OfUtf8(Utf8Decoder::new_inner()),
            Encoding::Utf16Le => Inner::OfUtf16(Utf16Decoder::new(ByteOrder::LittleEndian)),
            Encoding::Utf16Be => Inner::OfUtf16(Utf16Decoder::new(ByteOrder::BigEndian)),
        }
    }

    /// Returns whether nothing is pending.
    #[inline(always)]
    pub(crate) fn in_neutral_state(&self) -> bool
        ensures { IsTrue result ↔ ((state_of self.now).pending ≡ []) }
    {
        match self {
            Inner::OfUtf8(decoder) => decoder.in_neutral_state(),
            Inner::OfUtf16(decoder) => decoder.in_neutral_state(),
        }
    }

    /// Returns how many bytes are pending.
    #[inline]
    pub(crate) fn pending_length(&self) -> usize
        ensures length { result ≡ length (state_of self.now).pending }
        ensures within { result ≤ 3 }
    {
        match self {
            Inner::OfUtf8(decoder) => decoder.pending().1,
            Inner::OfUtf16(decoder) => decoder.pending().1,
        }
    }

    /// Returns an array that starts with the pending bytes, and how many they are.
    #[inline(always)]
    pub(crate) fn pending(&self) -> ([u8; 4], usize)
        ensures bytes { take result.1 result.0 ≡ (state_of self.now).pending }
        ensures count { result.1 ≡ length (state_of self.now).pending }
        ensures within { result.1 ≤ 3 }
    {
        match self {
            Inner::OfUtf8(decoder) => decoder.pending(),
            Inner::OfUtf16(decoder) => decoder.pending(),
        }
    }
}

/// A code unit of the output of any of the decoders.
pub(crate) trait Output: CodeUnit {
    // the queried length in an encoding for this many bytes after this many that are pending
    ghost query: { Encoding → ℕ → ℕ → ℕ };

    // the same with U+FFFD for each malformed sequence
    ghost replacing: { Encoding → ℕ → ℕ → ℕ };

    /// Returns the length of U+FFFD.
    fn replacement_length() -> usize
        ensures length { result ≡ length (Self.encode 0xFFFD) }
        ensures some { 0 < result }
        ensures at_most { result ≤ Self.need }
        ensures some_units { (c : ℕ) → IsScalar c → 0 < length (Self.encode c) }
        ensures grows { (e : Encoding) (n p m q : ℕ) → n + p ≤ m + q → query e n p ≤ query e m q }
        ensures grows_replacing { (e : Encoding) (n p m q : ℕ) → n + p ≤ m + q
            → replacing e n p ≤ replacing e m q }
        ensures holds { (e : Encoding) (n p : ℕ) → 0 < p → Self.need ≤ query e n p }
        ensures holds_replacing { (e : Encoding) (n p : ℕ) → 0 < p → Self.need ≤ replacing e n p };

    /// Writes U+FFFD to the start of `dst`.
    fn write_replacement(dst: &mut [Self])
        requires fits { length (Self.encode 0xFFFD) ≤ length dst.old }
        ensures { WritesPrefix dst.old dst.new (length (Self.encode 0xFFFD)) (Self.encode 0xFFFD) };

    /// Makes the decoder's call that writes these code units.
    fn decode(
        decoder: &mut Inner,
        src: &[u8],
        dst: &mut [Self],
        last: bool,
    ) -> (DecoderResult, usize, usize)
        ensures call { IsReportingCall Self.encode Self.need
            (state_of decoder.old) src.now dst.old dst.new last
            result.0 result.1 result.2 (state_of decoder.new) }
        ensures step { StepIn Self.encode Self.need
            (state_of decoder.old).encoding (state_of decoder.old).pending
            src.now (length dst.old) last result.0 result.1 (take result.2 dst.new)
            (state_of decoder.new).pending }
        ensures quiet { length src.now ≡ 0 → result.2 ≡ 0 }
        ensures suffices { SufficesReporting query (state_of decoder.old) src.now
            (length dst.old) last
            result.0 result.1 result.2 (state_of decoder.new) }
        ensures suffices_between_reports { SufficesReporting replacing
            (state_of decoder.old) src.now
            (length dst.old) last result.0 result.1 result.2 (state_of decoder.new) }
        ensures suffices_replacing { SufficesBetweenReports replacing (length (Self.encode 0xFFFD))
            (state_of decoder.old) src.now (length dst.old) last
            result.0 result.1 result.2 (state_of decoder.new) };
}

impl Output for u16 {
    ghost query = { max_utf16_length_in };

    ghost replacing = { max_utf16_length_in };

    fn replacement_length() -> usize {
        1
    }

    fn write_replacement(dst: &mut [u16]) {
        dst[0] = 0xFFFD;
    }

    #[inline(always)]
    fn decode(
        decoder: &mut Inner,
        src: &[u8],
        dst: &mut [u16],
        last: bool,
    ) -> (DecoderResult, usize, usize) {
        match decoder {
            Inner::OfUtf8(decoder) => {
                law_mixed_calls();
                decoder.decode_to_utf16_raw(src, dst, last)
            }
            Inner::OfUtf16(decoder) => decoder.decode_to_utf16_raw(src, dst, last),
        }
    }
}

impl Output for u8 {
    ghost query = { max_utf8_length_in };

    ghost replacing = { max_utf8_length_with_replacement_in };

    fn replacement_length() -> usize {
        3
    }

    fn write_replacement(dst: &mut [u8]) {
        put(dst, &[0xEF, 0xBF, 0xBD]);
    }

    #[inline(always)]
    fn decode(
        decoder: &mut Inner,
        src: &[u8],
        dst: &mut [u8],
        last: bool,
    ) -> (DecoderResult, usize, usize) {
        match decoder {
            Inner::OfUtf8(decoder) => {
                law_mixed_calls();
                decoder.decode_to_utf8_raw(src, dst, last)
            }
            Inner::OfUtf16(decoder) => decoder.decode_to_utf8_raw(src, dst, last),
        }
    }
}
