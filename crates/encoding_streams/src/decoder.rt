//! The streaming decoder of UTF-8, UTF-16LE and UTF-16BE, for streams that may start with a byte order mark: Encoding
//! Standard, "decode". Its calls have the form of those of the crate `encoding_rs`. The elements of `dst` past those
//! reported as written are unchanged, except those that the calls into a text clear.

mod inner;
mod queries;
mod replacing;
mod state;

ghost use Rattle.std.specs.Prelude.{◌≡◌, ◌↔◌, ◌+◌, ◌≤◌, true, false, [], length, take, encode_utf8, IsAscii, IsTrue};
ghost use Rattle.std.specs.Prelude.{IsSome, IfSome};
ghost use Rattle.std.specs.Option.{SomeIff};
ghost use Rattle.std.specs.Char.Escape.{encode_utf16};
ghost use Rattle.std.specs.Str.{IsUtf8};
ghost use Rattle.encoding_definitions.specs.Clearing.{WritesAndClears};
ghost use Rattle.encoding_definitions.specs.Prefixes.{IsLongestPrefix};
ghost use Rattle.encoding_streams.specs.Decoders.{IsReportingCall, IsReplacingCall, SufficesReporting};
ghost use Rattle.encoding_streams.specs.Decoders.{SufficesBetweenReports, SufficesReplacing, before_clearing, decoding};
ghost use Rattle.encoding_streams.specs.Decoders.{queried, max_utf16_length_in, max_utf8_length_in};
ghost use Rattle.encoding_streams.specs.Decoders.{max_utf8_length_with_replacement_in};
ghost use Rattle.encoding_streams.specs.DecoderSteps.{LeavesFree};
ghost use Rattle.encoding_streams.specs.ExactCalls.{AreReportLengths, IsExactCall, IsExactReplacingCall, IsPendingOf};

use crate::encoding::{BomHandling, CoderResult, Encoding};
use crate::utf16_decoder::pending::Pending;
use encoding_text::ascii::ascii_valid_up_to;
use encoding_text::decoder::DecoderResult;
use encoding_text::mem::clear_continuation_bytes;
use queries::{replaced_query, utf8_query, utf16_query};
use replacing::replace;
use state::{State, decode, is_off, is_pending_of};
use std::marker::Model;

/// A streaming decoder, whose input may be split at any byte. Between calls it keeps at most three bytes that it read:
/// the start of a mark that it looks for, or of a character. In contracts a decoder is its encoding, the marks that it
/// looks for and the list of these bytes.
#[derive(Drop)]
pub struct Decoder {
    state: State,
}

impl Model for Decoder {
    ghost use Rattle.encoding_streams.specs.ExactCalls.{IsPendingOf};
    ghost use Rattle.encoding_streams.specs.Decoders.{DecoderState};
    ghost use Rattle.encoding_streams.specs.DecoderSteps.{shown};

    ghost Value = { DecoderState };

    ghost view = { λ d. shown d.state };

    ghost invariant = { λ d. IsPendingOf d.state.bom d.state.encoding d.state.pending };
}

impl Encoding {
    /// Returns a decoder of a new stream whose byte order mark decides the encoding: that of UTF-8, UTF-16LE or
    /// UTF-16BE. With none of these marks the encoding is this one. The mark is removed.
    pub fn new_decoder(self) -> Decoder
        ensures { result ≡ record { encoding = self; bom = BomHandling.Sniff; pending = [] } }
    {
        new_decoder_with(self, BomHandling::Sniff)
    }

    /// Returns a decoder of a new stream, which removes this encoding's byte order mark.
    pub fn new_decoder_with_bom_removal(self) -> Decoder
        ensures { result ≡ record { encoding = self; bom = BomHandling.Remove; pending = [] } }
    {
        new_decoder_with(self, BomHandling::Remove)
    }

    /// Returns a decoder of a new stream, which decodes a byte order mark like any other character.
    pub fn new_decoder_without_bom_handling(self) -> Decoder
        ensures { result ≡ decoding self [] }
    {
        new_decoder_with(self, BomHandling::Off)
    }
}

/// Returns a decoder of a new stream.
fn new_decoder_with(encoding: Encoding, bom: BomHandling) -> Decoder
    ensures { result ≡ record { encoding = encoding; bom = bom; pending = [] } }
{
    Decoder {
        state: State {
            encoding,
            bom,
            pending: Pending::none(),
        },
    }
}

/// Returns whether it is UTF-8.
fn is_utf8(encoding: Encoding) -> bool
    ensures { IsTrue result ↔ (encoding ≡ Encoding.Utf8) }
{
    matches!(encoding, Encoding::Utf8)
}

impl Decoder {
    /// Returns the decoder that has this encoding, looks for these marks and has these bytes to decode, as the calls
    /// `encoding`, `bom_handling` and `pending` return them. If no decoder has these, nothing is pending of the one
    /// that it returns.
    pub fn from_state(encoding: Encoding, bom: BomHandling, pending: &[u8]) -> Decoder
        ensures of { (result.encoding ≡ encoding) × (result.bom ≡ bom) }
        ensures state { IsPendingOf bom encoding pending.now → result.pending ≡ pending.now }
        ensures other { (IsPendingOf bom encoding pending.now → ⊥) → result.pending ≡ [] }
    {
        if pending.is_empty() || pending.len() > 3 || !is_pending_of(bom, encoding, pending) {
            return new_decoder_with(encoding, bom);
        }
        Decoder {
            state: State {
                encoding,
                bom,
                pending: Pending::hold(pending),
            },
        }
    }

    /// Returns the encoding: that of the mark, once one was found.
    pub fn encoding(&self) -> Encoding
        ensures { result ≡ self.now.encoding }
    {
        self.state.encoding
    }

    /// Returns which marks it looks for: none, once the stream's first bytes are known.
    pub fn bom_handling(&self) -> BomHandling
        ensures { result ≡ self.now.bom }
    {
        self.state.bom
    }

    /// Returns an array that starts with the bytes that were read and are still to be decoded, and how many they are:
    /// the start of a mark that is looked for, or, if none is, the start of a character or none.
    pub fn pending(&self) -> ([u8; 4], usize)
        ensures bytes { take result.1 result.0 ≡ self.now.pending }
        ensures count { result.1 ≡ length self.now.pending }
        ensures within { result.1 ≤ 3 }
        ensures pending { IsPendingOf self.now.bom self.now.encoding self.now.pending }
    {
        self.state.pending.bytes()
    }

    /// Returns the length in UTF-16 code units of a destination that is large enough for the next `byte_length` bytes,
    /// however they are split into calls, even if U+FFFD is written for each malformed sequence. Let n be the sum of
    /// `byte_length`, the number of pending bytes and one. The length is n, or, if the encoding is UTF-16, half of n,
    /// plus one. As long as a mark may decide the encoding, it is the greater of both. `None` if n exceeds
    /// `usize::MAX`.
    pub fn max_utf16_buffer_length(&self, byte_length: usize) -> Option<usize>
        ensures { SomeIff result (byte_length + length self.now.pending + 1 ≤ usize.MAX)
            (queried max_utf16_length_in self.now byte_length) }
    {
        let pending = self.state.pending.len();
        utf16_query(self.state.bom, self.state.encoding, byte_length, pending)
    }

    /// Returns the length in bytes of a destination that is large enough for the next `byte_length` bytes, however they
    /// are split into calls, even if U+FFFD is written for each malformed sequence. Let n be the sum of `byte_length`,
    /// the number of pending bytes and one. The length is three times n, or, if the encoding is UTF-16, three times
    /// half of n, plus one. As long as a mark may decide the encoding, it is the greater of both. `None` if the length
    /// exceeds `usize::MAX`.
    pub fn max_utf8_buffer_length(&self, byte_length: usize) -> Option<usize>
        ensures { SomeIff result
            (queried max_utf8_length_with_replacement_in self.now byte_length ≤ usize.MAX)
            (queried max_utf8_length_with_replacement_in self.now byte_length) }
    {
        let pending = self.state.pending.len();
        replaced_query(self.state.bom, self.state.encoding, byte_length, pending)
    }

    /// Returns the length in bytes of a destination that is large enough for the next `byte_length` bytes, however they
    /// are split into calls, if nothing is written for malformed sequences. Let n be the sum of `byte_length`, the
    /// number of pending bytes and one. The length is n plus two, or, if the encoding is UTF-16, three times half of n,
    /// plus one. As long as a mark may decide the encoding, it is the greater of both. `None` if the length exceeds
    /// `usize::MAX`.
    pub fn max_utf8_buffer_length_without_replacement(&self, byte_length: usize) -> Option<usize>
        ensures { SomeIff result (queried max_utf8_length_in self.now byte_length ≤ usize.MAX)
            (queried max_utf8_length_in self.now byte_length) }
    {
        let pending = self.state.pending.len();
        utf8_query(self.state.bom, self.state.encoding, byte_length, pending)
    }

    /// Returns how many of the next bytes are characters of the same numbers: the length of the longest ASCII prefix.
    /// `None` unless the encoding is UTF-8, no mark is looked for and nothing is pending.
    pub fn latin1_byte_compatible_up_to(&self, bytes: &[u8]) -> Option<usize>
        ensures prefix { IfSome result (λ n. IsLongestPrefix IsAscii bytes.now n) }
        ensures some { IsSome result ↔ ((self.now.encoding ≡ Encoding.Utf8)
            × (self.now.bom ≡ BomHandling.Off) × (self.now.pending ≡ [])) }
    {
        if is_utf8(self.state.encoding) && is_off(self.state.bom) && self.state.pending.is_empty() {
            return Some(ascii_valid_up_to(bytes));
        }
        None
    }

    /// Decodes to UTF-16, with U+FFFD for each malformed sequence. Returns why the call ended, the number of bytes of
    /// `src` read, the number of code units written, and the number of malformed sequences replaced. `last` says that
    /// no bytes follow `src`.
    ///
    /// Pass the unread bytes again. Once a call marked last returns `InputEmpty`, the code units of all calls are the
    /// text of the stream without its mark, in any pieces and destinations. If two code units are left, a call goes on.
    /// A call that returns `OutputFull`, and reads and writes nothing, leaves the decoder as it was.
    pub fn decode_to_utf16(
        &mut self,
        src: &[u8],
        dst: &mut [u16],
        last: bool,
    ) -> (CoderResult, usize, usize, usize)
        ensures call { IsReplacingCall encode_utf16 2 self.old src.now dst.old dst.new last
            result.0 result.1 result.2 result.3 self.new }
        ensures exact { IsExactReplacingCall encode_utf16 2 self.old src.now (length dst.old) last
            result.0 result.1 (take result.2 dst.new) result.3 self.new }

        // If `src` has at most `byte_length` bytes and `dst` has the length that `max_utf16_buffer_length(byte_length)`
        // returned, the call doesn't return `OutputFull`, and the space left is enough for the rest of these bytes.
        ensures suffices { SufficesReplacing max_utf16_length_in self.old src.now
            (length dst.old) last
            result.0 result.1 result.2 self.new }
    {
        replace::<u16>(&mut self.state, src, dst, last)
    }

    /// Decodes to UTF-8, with U+FFFD for each malformed sequence. Returns why the call ended, the number of bytes of
    /// `src` read, the number of bytes written, and the number of malformed sequences replaced. `last` says that no
    /// bytes follow `src`.
    ///
    /// Pass the unread bytes again. Once a call marked last returns `InputEmpty`, the bytes of all calls are the text
    /// of the stream without its mark, in any pieces and destinations. If four bytes are left, a call goes on. A call
    /// that returns `OutputFull`, and reads and writes nothing, leaves the decoder as it was.
    pub fn decode_to_utf8(
        &mut self,
        src: &[u8],
        dst: &mut [u8],
        last: bool,
    ) -> (CoderResult, usize, usize, usize)
        ensures call { IsReplacingCall encode_utf8 4 self.old src.now dst.old dst.new last
            result.0 result.1 result.2 result.3 self.new }
        ensures exact { IsExactReplacingCall encode_utf8 4 self.old src.now (length dst.old) last
            result.0 result.1 (take result.2 dst.new) result.3 self.new }
        ensures text { IsUtf8 (take result.2 dst.new) }

        // If `src` has at most `byte_length` bytes and `dst` has the length that `max_utf8_buffer_length(byte_length)`
        // returned, the call doesn't return `OutputFull`, and the space left is enough for the rest of these bytes.
        ensures suffices { SufficesReplacing max_utf8_length_with_replacement_in self.old src.now
            (length dst.old) last result.0 result.1 result.2 self.new }
    {
        replace::<u8>(&mut self.state, src, dst, last)
    }

    /// Decodes into the start of a text, with U+FFFD for each malformed sequence, and returns the same as
    /// `decode_to_utf8`.
    ///
    /// `dst` is well-formed before and after. The continuation bytes directly after the output become zero, and the
    /// rest of `dst` is unchanged.
    pub fn decode_to_str(
        &mut self,
        src: &[u8],
        dst: &mut [u8],
        last: bool,
    ) -> (CoderResult, usize, usize, usize)
        requires text { IsUtf8 dst.old }
        ensures call { IsReplacingCall encode_utf8 4 self.old src.now dst.old
            (before_clearing result.2 dst.old dst.new) last
            result.0 result.1 result.2 result.3 self.new }
        ensures exact { IsExactReplacingCall encode_utf8 4 self.old src.now (length dst.old) last
            result.0 result.1 (take result.2 dst.new) result.3 self.new }
        ensures unchanged_after { WritesAndClears 0 dst.old dst.new result.2
            (take result.2 dst.new) }
        ensures text { IsUtf8 dst.new }

        // If `src` has at most `byte_length` bytes and `dst` has the length that `max_utf8_buffer_length(byte_length)`
        // returned, the call doesn't return `OutputFull`, and the space left is enough for the rest of these bytes.
        ensures suffices { SufficesReplacing max_utf8_length_with_replacement_in self.old src.now
            (length dst.old) last result.0 result.1 result.2 self.new }
    {
        let (result, read, written, replaced) = self.decode_to_utf8(src, dst, last);
        clear_continuation_bytes(&mut dst[written..]);
        (result, read, written, replaced)
    }

    /// Decodes to UTF-16. Returns what ended the call, how many bytes of `src` it read and how many code units it
    /// wrote. `last` says that no bytes follow `src`.
    ///
    /// A malformed sequence is returned as `Malformed` and nothing is written for it. Its first number is the length of
    /// the sequence, one to three bytes. The second is the number of bytes read after it, at most one, which stay
    /// pending. Two code units of `dst` are left then. To continue, write U+FFFD and pass the unread bytes again.
    pub fn decode_to_utf16_without_replacement(
        &mut self,
        src: &[u8],
        dst: &mut [u16],
        last: bool,
    ) -> (DecoderResult, usize, usize)
        ensures call { IsReportingCall encode_utf16 2 self.old src.now dst.old dst.new last
            result.0 result.1 result.2 self.new }
        ensures exact { IsExactCall encode_utf16 2 self.old src.now (length dst.old) last
            result.0 result.1 (take result.2 dst.new) self.new }
        ensures lengths { AreReportLengths result.0 }
        ensures free { LeavesFree 2 self.old.pending src.now (length dst.old) result.0 result.2 }

        // If `src` has at most `byte_length` bytes and `dst` has the length that `max_utf16_buffer_length(byte_length)`
        // returned, the call doesn't return `OutputFull`. The space left is enough for the rest of these bytes, even
        // after the caller writes U+FFFD.
        ensures suffices { SufficesReporting max_utf16_length_in self.old src.now
            (length dst.old) last
            result.0 result.1 result.2 self.new }
        ensures suffices_replacing { SufficesBetweenReports max_utf16_length_in 1 self.old src.now
            (length dst.old) last result.0 result.1 result.2 self.new }
    {
        decode::<u16>(&mut self.state, src, dst, last)
    }

    /// Decodes to UTF-8. Returns what ended the call, how many bytes of `src` it read and how many bytes it wrote.
    /// `last` says that no bytes follow `src`.
    ///
    /// A malformed sequence is returned as `Malformed` and nothing is written for it. Its first number is the length of
    /// the sequence, one to three bytes. The second is the number of bytes read after it, at most one, which stay
    /// pending. Four bytes of `dst` are left then. To continue, write U+FFFD and pass the unread bytes again.
    pub fn decode_to_utf8_without_replacement(
        &mut self,
        src: &[u8],
        dst: &mut [u8],
        last: bool,
    ) -> (DecoderResult, usize, usize)
        ensures call { IsReportingCall encode_utf8 4 self.old src.now dst.old dst.new last
            result.0 result.1 result.2 self.new }
        ensures exact { IsExactCall encode_utf8 4 self.old src.now (length dst.old) last
            result.0 result.1 (take result.2 dst.new) self.new }
        ensures text { IsUtf8 (take result.2 dst.new) }
        ensures lengths { AreReportLengths result.0 }
        ensures free { LeavesFree 4 self.old.pending src.now (length dst.old) result.0 result.2 }

        // If `src` has at most `byte_length` bytes and `dst` has the length that `max_utf8_buffer_length(byte_length)`
        // or `max_utf8_buffer_length_without_replacement(byte_length)` returned, the call doesn't return `OutputFull`,
        // and the space left is enough for the rest of these bytes. With the first, it is enough even after the caller
        // writes U+FFFD.
        ensures suffices { SufficesReporting max_utf8_length_in self.old src.now
            (length dst.old) last
            result.0 result.1 result.2 self.new }
        ensures suffices_between_reports { SufficesReporting max_utf8_length_with_replacement_in
            self.old src.now (length dst.old) last result.0 result.1 result.2 self.new }
        ensures suffices_replacing { SufficesBetweenReports max_utf8_length_with_replacement_in
            (length (encode_utf8 0xFFFD)) self.old src.now (length dst.old) last
            result.0 result.1 result.2 self.new }
    {
        decode::<u8>(&mut self.state, src, dst, last)
    }

    /// Decodes into the start of a text, reports malformed sequences, and returns the same as
    /// `decode_to_utf8_without_replacement`.
    ///
    /// `dst` is well-formed before and after. The continuation bytes directly after the output become zero, and the
    /// rest of `dst` is unchanged.
    pub fn decode_to_str_without_replacement(
        &mut self,
        src: &[u8],
        dst: &mut [u8],
        last: bool,
    ) -> (DecoderResult, usize, usize)
        requires text { IsUtf8 dst.old }
        ensures call { IsReportingCall encode_utf8 4 self.old src.now dst.old
            (before_clearing result.2 dst.old dst.new) last
            result.0 result.1 result.2 self.new }
        ensures exact { IsExactCall encode_utf8 4 self.old src.now (length dst.old) last
            result.0 result.1 (take result.2 dst.new) self.new }
        ensures unchanged_after { WritesAndClears 0 dst.old dst.new result.2
            (take result.2 dst.new) }
        ensures text { IsUtf8 dst.new }
        ensures lengths { AreReportLengths result.0 }
        ensures free { LeavesFree 4 self.old.pending src.now (length dst.old) result.0 result.2 }

        // If `src` has at most `byte_length` bytes and `dst` has the length that `max_utf8_buffer_length(byte_length)`
        // or `max_utf8_buffer_length_without_replacement(byte_length)` returned, the call doesn't return `OutputFull`,
        // and the space left is enough for the rest of these bytes. With the first, it is enough even after the caller
        // writes U+FFFD.
        ensures suffices { SufficesReporting max_utf8_length_in self.old src.now
            (length dst.old) last
            result.0 result.1 result.2 self.new }
        ensures suffices_between_reports { SufficesReporting max_utf8_length_with_replacement_in
            self.old src.now (length dst.old) last result.0 result.1 result.2 self.new }
        ensures suffices_replacing { SufficesBetweenReports max_utf8_length_with_replacement_in
            (length (encode_utf8 0xFFFD)) self.old src.now (length dst.old) last
            result.0 result.1 result.2 self.new }
    {
        let (result, read, end) = self.decode_to_utf8_without_replacement(src, dst, last);
        clear_continuation_bytes(&mut dst[end..]);
        (result, read, end)
    }
}
