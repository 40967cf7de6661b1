//! The streaming decoder of UTF-16LE and UTF-16BE: Encoding Standard, section 14.2, shared UTF-16 decoder. Its calls
//! have the form of those of the UTF-8 decoder. The elements of `dst` past those reported as written are unchanged.

mod bytes;
pub(crate) mod code_unit;
mod paired;
pub(crate) mod pending;
mod units;
pub(crate) mod window;

ghost use Rattle.std.specs.Prelude.{◌≡◌, ◌≢◌, ◌<◌, ◌≤◌, ◌↔◌, ◌⊎◌, ◌+◌, ◌-◌, ◌*◌, [], length, take, drop, encode_utf8};
ghost use Rattle.std.specs.Prelude.{IsTrue};
ghost use Rattle.std.specs.Option.{SomeIff};
ghost use Rattle.std.specs.Char.Escape.{encode_utf16};
ghost use Rattle.encoding_text.specs.Decoding.{IsReport, Suffices};
ghost use Rattle.encoding_streams.specs.Utf16Parts.{IsPendingUtf16};
ghost use Rattle.encoding_streams.specs.Utf16Decoding.{DecodeUtf16StepInto, SufficesReplacingUtf16};
ghost use Rattle.encoding_streams.specs.Utf16Decoding.{max_utf16_length_from_utf16, max_utf8_length_from_utf16};
ghost use Rattle.encoding_streams.specs.Utf16Steps.{Advances, Resumes};

use code_unit::CodeUnit;
use encoding_text::decoder::DecoderResult;
use encoding_text::utf_16::ByteOrder;
use pending::Pending;
use std::marker::Model;
use window::{First, WINDOW, first_of, is_for_resume, is_incomplete};

/// A streaming decoder of UTF-16LE or UTF-16BE, whose input may be split at any byte. Its pending bytes, which it keeps
/// between calls, are none or the start of a character: a high surrogate, the first byte of a code unit, or both. In
/// contracts a decoder is its byte order and the list of these bytes.
#[derive(Drop)]
pub struct Utf16Decoder {
    order: ByteOrder,
    pending: Pending,
}

impl Model for Utf16Decoder {
    ghost use Rattle.encoding_streams.specs.Utf16Parts.{IsPendingUtf16};
    ghost use Rattle.encoding_streams.specs.Utf16Decoding.{Utf16State};

    ghost Value = { Utf16State };

    ghost view = { λ d. record { order = d.order; pending = d.pending } };

    ghost invariant = { λ d. IsPendingUtf16 d.order d.pending };
}

impl Utf16Decoder {
    /// Returns a decoder with nothing pending.
    pub fn new(order: ByteOrder) -> Utf16Decoder
        ensures { result ≡ record { order = order; pending = [] } }
    {
        Utf16Decoder {
            order,
            pending: Pending::none(),
        }
    }

    /// Returns a decoder that has the first `count` of these bytes pending, as `pending` returns them. If no decoder
    /// has these, nothing is pending of the one that it returns.
    #[inline(always)]
    pub fn from_pending(order: ByteOrder, bytes: [u8; 4], count: usize) -> Utf16Decoder
        ensures order { result.order ≡ order }
        ensures held { IsPendingUtf16 order (take count bytes)
            → result.pending ≡ take count bytes }
        ensures other { (IsPendingUtf16 order (take count bytes) → ⊥) → result.pending ≡ [] }
    {
        if count >= WINDOW || !is_incomplete(order, &bytes[..count]) {
            return Utf16Decoder::new(order);
        }
        Utf16Decoder {
            order,
            pending: Pending::of(bytes, count),
        }
    }

    /// Returns whether nothing is pending.
    pub fn in_neutral_state(&self) -> bool
        ensures neutral { IsTrue result ↔ (self.now.pending ≡ []) }
        ensures pending { IsPendingUtf16 self.now.order self.now.pending }
    {
        self.pending.is_empty()
    }

    /// Returns an array that starts with the pending bytes, and how many they are.
    #[inline(always)]
    pub fn pending(&self) -> ([u8; 4], usize)
        ensures bytes { take result.1 result.0 ≡ self.now.pending }
        ensures count { result.1 ≡ length self.now.pending }
        ensures within { result.1 ≤ 3 }
        ensures pending { IsPendingUtf16 self.now.order self.now.pending }
    {
        self.pending.bytes()
    }

    /// Returns the length in UTF-16 code units of a destination that is large enough for the next `byte_length` bytes,
    /// however they are split into calls, even if U+FFFD is written for each malformed sequence: half the sum of
    /// `byte_length`, the number of pending bytes and one, plus one. `None` if that sum exceeds `usize::MAX`.
    pub fn max_utf16_buffer_length(&self, byte_length: usize) -> Option<usize>
        ensures { SomeIff result (byte_length + length self.now.pending + 1 ≤ usize.MAX)
            (max_utf16_length_from_utf16 byte_length (length self.now.pending)) }
    {
        let bytes = byte_length.checked_add(self.pending.len())?.checked_add(1)?;
        Some(bytes / 2 + 1)
    }

    /// Returns the length in bytes of a destination that is large enough for the next `byte_length` bytes, however they
    /// are split into calls, if nothing is written for malformed sequences. It is what `max_utf8_buffer_length`
    /// returns.
    pub fn max_utf8_buffer_length_without_replacement(&self, byte_length: usize) -> Option<usize>
        ensures { SomeIff result
            (max_utf8_length_from_utf16 byte_length (length self.now.pending) ≤ usize.MAX)
            (max_utf8_length_from_utf16 byte_length (length self.now.pending)) }
    {
        self.max_utf8_buffer_length(byte_length)
    }

    /// Returns the length in bytes of a destination that is large enough for the next `byte_length` bytes, however they
    /// are split into calls, even if U+FFFD is written for each malformed sequence: three times half the sum of
    /// `byte_length`, the number of pending bytes and one, plus one. `None` if the length exceeds `usize::MAX`.
    pub fn max_utf8_buffer_length(&self, byte_length: usize) -> Option<usize>
        ensures { SomeIff result
            (max_utf8_length_from_utf16 byte_length (length self.now.pending) ≤ usize.MAX)
            (max_utf8_length_from_utf16 byte_length (length self.now.pending)) }
    {
        let bytes = byte_length.checked_add(self.pending.len())?.checked_add(1)?;
        (bytes / 2).checked_mul(3)?.checked_add(1)
    }

    /// Decodes to UTF-16. Returns what ended the call, how many bytes of `src` it read and how many code units it
    /// wrote. `last` says that no bytes follow `src`.
    ///
    /// A malformed sequence is returned as `Malformed` and nothing is written for it. Its first number is the length of
    /// the sequence: two bytes, or one to three at the end of the input. The second is the number of bytes read after
    /// the sequence, at most one, which stay pending. To continue, write U+FFFD and pass the unread bytes again. If
    /// `dst` has at least two code units and `src` isn't empty, a call reads at least one byte or returns `Malformed`.
    #[inline(always)]
    pub fn decode_to_utf16_raw(
        &mut self,
        src: &[u8],
        dst: &mut [u16],
        last: bool,
    ) -> (DecoderResult, usize, usize)
        ensures order { self.new.order ≡ self.old.order }
        ensures call { DecodeUtf16StepInto self.old.order encode_utf16 2 self.old.pending src.now
            dst.old dst.new last result.0 result.1 result.2 self.new.pending }
        ensures progress { 0 < length src.now → 2 ≤ length dst.old
            → (0 < result.1) ⊎ IsReport result.0 }

        // If `src` has at most `byte_length` bytes and `dst` has the length that `max_utf16_buffer_length(byte_length)`
        // returned, the call doesn't return `OutputFull`. The space left is enough for the rest of the `byte_length`
        // bytes, even after the caller writes U+FFFD.
        ensures suffices { Suffices max_utf16_length_from_utf16 self.old.pending src.now
            (length dst.old) result.0 result.1 result.2 self.new.pending }
        ensures suffices_replacing { SufficesReplacingUtf16 max_utf16_length_from_utf16 1
            self.old.pending src.now (length dst.old) last
            result.0 result.1 result.2 self.new.pending }
    {
        decode::<u16>(self.order, &mut self.pending, src, dst, last)
    }

    /// Decodes to UTF-8. Returns what ended the call, how many bytes of `src` it read and how many bytes it wrote.
    /// `last` says that no bytes follow `src`.
    ///
    /// A malformed sequence is returned as `Malformed` and nothing is written for it. Its first number is the length of
    /// the sequence: two bytes, or one to three at the end of the input. The second is the number of bytes read after
    /// the sequence, at most one, which stay pending. To continue, write U+FFFD and pass the unread bytes again. If
    /// `dst` has at least four bytes and `src` isn't empty, a call reads at least one byte or returns `Malformed`.
    #[inline(always)]
    pub fn decode_to_utf8_raw(
        &mut self,
        src: &[u8],
        dst: &mut [u8],
        last: bool,
    ) -> (DecoderResult, usize, usize)
        ensures order { self.new.order ≡ self.old.order }
        ensures call { DecodeUtf16StepInto self.old.order encode_utf8 4 self.old.pending src.now
            dst.old dst.new last result.0 result.1 result.2 self.new.pending }
        ensures progress { 0 < length src.now → 4 ≤ length dst.old
            → (0 < result.1) ⊎ IsReport result.0 }

        // If `src` has at most `byte_length` bytes and `dst` has the length that `max_utf8_buffer_length(byte_length)`
        // returned, the call doesn't return `OutputFull`. The space left is enough for the rest of the `byte_length`
        // bytes, even after the caller writes U+FFFD.
        ensures suffices { Suffices max_utf8_length_from_utf16 self.old.pending src.now
            (length dst.old) result.0 result.1 result.2 self.new.pending }
        ensures suffices_replacing { SufficesReplacingUtf16 max_utf8_length_from_utf16 3
            self.old.pending src.now (length dst.old) last
            result.0 result.1 result.2 self.new.pending }
    {
        decode::<u8>(self.order, &mut self.pending, src, dst, last)
    }
}

/// Decodes `src` after the pending bytes. Returns what ended the call, how many bytes it read and how many code units
/// it wrote.
#[inline(always)]
fn decode<U: CodeUnit>(
    order: ByteOrder,
    pending: &mut Pending,
    src: &[u8],
    dst: &mut [U],
    last: bool,
) -> (DecoderResult, usize, usize)
    requires pending { IsPendingUtf16 order pending.old }
    ensures { DecodeUtf16StepInto order U.encode U.need pending.old src.now dst.old dst.new last
        result.0 result.1 result.2 pending.new }
{
    let mut read = 0;
    let mut written = 0;
    loop {
        let (more, extra) = convert_neutral(order, pending, &src[read..], &mut dst[written..]);
        read += more;
        written += extra;
        if read == src.len() {
            if pending.is_empty() {
                return (DecoderResult::InputEmpty, read, written);
            }
        }
        let (result, more, extra) = resume(order, pending, &src[read..], &mut dst[written..], last);
        read += more;
        written += extra;
        match result {
            Some(result) => return (result, read, written),
            None => {}
        }
    }
}

/// Converts as `CodeUnit::convert` does if nothing is pending. Before what only `resume` takes it converts nothing.
#[inline(always)]
fn convert_neutral<U: CodeUnit>(
    order: ByteOrder,
    pending: &Pending,
    src: &[u8],
    dst: &mut [U],
) -> (usize, usize)
    ensures characters { Advances order U.encode pending.now src.now dst.old dst.new
        result.0 result.1 pending.now }
    ensures none { pending.now ≢ [] → result.0 ≡ 0 }
{
    if !pending.is_empty() || is_for_resume(order, src) {
        return (0, 0);
    }
    U::convert(order, src, dst)
}

/// Decodes the pending bytes and the first bytes of `src`. Returns what ended the call, or `None` if it wrote
/// characters and goes on, how many bytes it read and how many code units it wrote.
#[inline(never)]
fn resume<U: CodeUnit>(
    order: ByteOrder,
    pending: &mut Pending,
    src: &[u8],
    dst: &mut [U],
    last: bool,
) -> (Option<DecoderResult>, usize, usize)
    requires pending { IsPendingUtf16 order pending.old }
    ensures { Resumes order U.encode U.need pending.old src.now dst.old dst.new last
        result.0 result.1 result.2 pending.new }
{
    let before = pending.len();
    let (window, count) = pending.followed_by(src);
    match first_of(order, &window[..count]) {
        First::Characters(units, valid) => {
            let (taken, written) = U::write(&units[..valid], dst);
            if taken == 0 {
                return (Some(DecoderResult::OutputFull), 0, 0);
            }
            *pending = Pending::none();
            (None, 2 * taken - before, written)
        }
        First::Unpaired => {
            if dst.len() < U::max_units_per_scalar() {
                return (Some(DecoderResult::OutputFull), 0, 0);
            }
            if before < 3 {
                *pending = Pending::none();
                return (Some(DecoderResult::Malformed(2, 0)), 2 - before, 0);
            }
            *pending = Pending::hold(&window[2..3]);
            (Some(DecoderResult::Malformed(2, 1)), 0, 0)
        }
        First::Incomplete => {
            if !last || count == 0 {
                *pending = Pending::of(window, count);
                return (Some(DecoderResult::InputEmpty), src.len(), 0);
            }
            if !src.is_empty() && dst.len() < U::max_units_per_scalar() {
                return (Some(DecoderResult::OutputFull), 0, 0);
            }
            *pending = Pending::none();
            (Some(DecoderResult::Malformed(count as u8, 0)), src.len(), 0)
        }
    }
}
