//! The streaming UTF-8 decoder: Encoding Standard, section 8.1.1. The elements of `dst` past those
//! reported as written are unchanged.

ghost use Rattle.std.specs.Prelude.{◌≡◌, ℕ, ◌<◌, ◌≤◌, ◌↔◌, ◌⊎◌, List, [], length, take, encode_utf8, IsTrue, ◌≢◌};
ghost use Rattle.std.specs.Option.{SomeIff};
ghost use Rattle.std.specs.Char.Escape.{encode_utf16};
ghost use Rattle.encoding_definitions.specs.Sequence.{IsPending, IsIncomplete};
ghost use Rattle.encoding_text.specs.Decoding.{DecodeStepInto, BorrowedDecodeStep};

use crate::ascii::prefixes::is_short;
use crate::utf_8::first::First;
use crate::utf_8::{FromUtf8, valid_beyond_ascii};
use encoding_kernels::lengths::SHORT;
use encoding_kernels::scalar::decode_utf8_scalar;
use encoding_kernels::simd::width::ASCII_END;
use pending::{Pending, Resumed};
use std::marker::Model;

mod pending;
pub(crate) mod replacing;

/// What ended a call of a decoder.
#[derive(Debug, PartialEq, Eq, Drop)]
pub enum DecoderResult {
    /// All of the source was read. If `last` was set, nothing is pending: an incomplete sequence at the end of the
    /// input was returned as `Malformed` before.
    InputEmpty,
    /// The remaining space might be too small for the next character. Call again with the unread rest of the source and
    /// a larger or emptied destination.
    OutputFull,
    /// A malformed sequence ends where this call stopped reading, and nothing is pending. The first number is the
    /// length of the sequence, one to three bytes, some of which an earlier call may have read. The second is the
    /// number of bytes read after the sequence, which is always 0.
    Malformed(u8, u8),
}

/// What `decode_borrowed_raw` returns.
#[derive(Debug, PartialEq, Eq, Drop)]
pub enum Piece<'a> {
    /// The longest well-formed prefix of the source, borrowed from it.
    Text(&'a str),
    /// The character whose first bytes were pending and whose last bytes were read.
    Char(char),
    /// A malformed sequence of this length, one to three bytes: the pending bytes, then the bytes read.
    Malformed(u8),
    /// All of the source was read.
    InputEmpty,
}

/// A streaming UTF-8 decoder, whose input may be split at any byte. Its pending bytes, which it keeps between calls,
/// are none or an incomplete sequence of at most three bytes. In contracts a decoder is the list of these bytes.
#[derive(Drop)]
pub struct Utf8Decoder {
    pending: Pending,
}

impl Model for Utf8Decoder {
    ghost Value = { List ℕ };

    ghost view = { λ d. d.pending };
}

impl Utf8Decoder {
    ghost use Rattle.encoding_text.specs.Decoding.{DecodeStepInto, BorrowedDecodeStep, IsReport};
    ghost use Rattle.encoding_text.specs.Decoding.{Suffices, SufficesReplacing, max_utf16_length};
    ghost use Rattle.encoding_text.specs.Decoding.{max_utf8_length, max_utf8_length_with_replacement};

    /// Returns a decoder with nothing pending.
    pub fn new_inner() -> Utf8Decoder
        ensures { result ≡ [] }
    {
        Utf8Decoder {
            pending: Pending::none(),
        }
    }

    /// Returns whether nothing is pending.
    pub fn in_neutral_state(&self) -> bool
        ensures neutral { IsTrue result ↔ (self.now ≡ []) }
        ensures pending { IsPending self.now }
    {
        self.pending.is_empty()
    }

    /// Returns an array that starts with the pending bytes, and how many they are.
    #[inline(always)]
    pub fn pending(&self) -> ([u8; 4], usize)
        ensures bytes { take result.1 result.0 ≡ self.now }
        ensures count { result.1 ≡ length self.now }
        ensures within { result.1 ≤ 3 }
        ensures pending { IsPending self.now }
    {
        self.pending.bytes()
    }

    /// Returns the length in UTF-16 code units of a destination that is large enough for the next `byte_length` bytes,
    /// however they are split into calls, if U+FFFD is written for each malformed sequence: `byte_length` plus one plus
    /// the number of pending bytes. `None` if the length exceeds `usize::MAX`.
    pub fn max_utf16_buffer_length(&self, byte_length: usize) -> Option<usize>
        ensures { SomeIff result (max_utf16_length byte_length (length self.now) ≤ usize.MAX)
            (max_utf16_length byte_length (length self.now)) }
    {
        byte_length.checked_add(1)?.checked_add(self.pending.len())
    }

    /// Returns the length in bytes of a destination that is large enough for the next `byte_length` bytes, however they
    /// are split into calls, if nothing is written for malformed sequences: `byte_length` plus three plus the number of
    /// pending bytes. `None` if the length exceeds `usize::MAX`.
    pub fn max_utf8_buffer_length_without_replacement(&self, byte_length: usize) -> Option<usize>
        ensures { SomeIff result (max_utf8_length byte_length (length self.now) ≤ usize.MAX)
            (max_utf8_length byte_length (length self.now)) }
    {
        byte_length.checked_add(3)?.checked_add(self.pending.len())
    }

    /// Returns the length in bytes of a destination that is large enough for the next `byte_length` bytes, however they
    /// are split into calls, if U+FFFD is written for each malformed sequence: three times the sum of `byte_length`,
    /// the number of pending bytes and one. `None` if the length exceeds `usize::MAX`.
    pub fn max_utf8_buffer_length(&self, byte_length: usize) -> Option<usize>
        ensures { SomeIff result
            (max_utf8_length_with_replacement byte_length (length self.now) ≤ usize.MAX)
            (max_utf8_length_with_replacement byte_length (length self.now)) }
    {
        byte_length
            .checked_add(self.pending.len())?
            .checked_mul(3)?
            .checked_add(3)
    }

    /// Decodes to UTF-16. Returns what ended the call, how many bytes of `src` it read and how many code units it
    /// wrote. `last` says that no bytes follow `src`.
    ///
    /// A malformed sequence is returned as `Malformed` and nothing is written for it. To continue, write U+FFFD and
    /// pass the unread bytes again: the decoder is in its initial state. If `dst` has at least two code units and `src`
    /// isn't empty, a call reads at least one byte or returns `Malformed`.
    #[inline(always)]
    pub fn decode_to_utf16_raw(
        &mut self,
        src: &[u8],
        dst: &mut [u16],
        last: bool,
    ) -> (DecoderResult, usize, usize)
        ensures call { DecodeStepInto encode_utf16 2 self.old src.now dst.old dst.new last result.0
            result.1 result.2 self.new }
        ensures progress { 0 < length src.now → 2 ≤ length dst.old
            → (0 < result.1) ⊎ IsReport result.0 }

        // If `src` has at most `byte_length` bytes and `dst` has the length that `max_utf16_buffer_length(byte_length)`
        // returned, the call doesn't return `OutputFull`. The space left is enough for the rest of the `byte_length`
        // bytes, even after the caller writes U+FFFD.
        ensures suffices { Suffices max_utf16_length self.old src.now
            (length dst.old) result.0 result.1 result.2 self.new }
        ensures suffices_replacing { SufficesReplacing max_utf16_length 1 self.old src.now
            (length dst.old)
            result.0 result.1 result.2 self.new }
    {
        decode::<u16>(&mut self.pending, src, dst, last)
    }

    /// Decodes to UTF-8. Returns what ended the call, how many bytes of `src` it read and how many bytes it wrote.
    /// `last` says that no bytes follow `src`.
    ///
    /// A malformed sequence is returned as `Malformed` and nothing is written for it. To continue, write U+FFFD and
    /// pass the unread bytes again: the decoder is in its initial state. If `dst` has at least four bytes and `src`
    /// isn't empty, a call reads at least one byte or returns `Malformed`.
    #[inline(always)]
    pub fn decode_to_utf8_raw(
        &mut self,
        src: &[u8],
        dst: &mut [u8],
        last: bool,
    ) -> (DecoderResult, usize, usize)
        ensures call { DecodeStepInto encode_utf8 4 self.old src.now dst.old dst.new last result.0
            result.1 result.2 self.new }
        ensures progress { 0 < length src.now → 4 ≤ length dst.old
            → (0 < result.1) ⊎ IsReport result.0 }

        // If `src` has at most `byte_length` bytes and `dst` has the length that `max_utf8_buffer_length(byte_length)`
        // or `max_utf8_buffer_length_without_replacement(byte_length)` returned, the call doesn't return `OutputFull`.
        // The space left is enough for the rest of the `byte_length` bytes. If `max_utf8_buffer_length` returned the
        // length, the space left is enough even after the caller writes U+FFFD.
        ensures suffices { Suffices max_utf8_length self.old src.now
            (length dst.old) result.0 result.1 result.2 self.new }
        ensures suffices_between_reports { Suffices max_utf8_length_with_replacement self.old
            src.now (length dst.old)
            result.0 result.1 result.2 self.new }
        ensures suffices_replacing { SufficesReplacing max_utf8_length_with_replacement 3 self.old
            src.now (length dst.old)
            result.0 result.1 result.2 self.new }
    {
        decode::<u8>(&mut self.pending, src, dst, last)
    }

    /// Decodes without copying. Returns the next piece of output and how many bytes of `src` were read. `last` says
    /// that no bytes follow `src`.
    ///
    /// If nothing is pending and `src` starts with a character, the piece is the longest well-formed prefix, borrowed
    /// from `src`. Otherwise, the pending bytes and `src` are read as one input, and the piece is the first character
    /// or malformed sequence in it. If the input ends inside its first character, the result depends on `last`. If
    /// `last` is set, the piece is `Malformed`. Otherwise, the bytes become pending and the piece is `InputEmpty`. If
    /// the input is empty, the piece is `InputEmpty` too.
    ///
    /// Call again with the unread rest of `src` until all is read. Nothing is allocated.
    #[inline(always)]
    pub fn decode_borrowed_raw<'a>(&mut self, src: &'a [u8], last: bool) -> (Piece<'a>, usize)
        ensures { BorrowedDecodeStep self.old src.now last result.0 result.1 self.new }
    {
        decode_borrowed(&mut self.pending, src, last)
    }
}

#[tactic(auto, using(std::proofs::lemmas::Bool::both_ways, crate::proofs::PendingLemmas::pending_incomplete))]
#[inline(always)]
pub(crate) fn decode<U: FromUtf8>(
    pending: &mut Pending,
    src: &[u8],
    dst: &mut [U],
    last: bool,
) -> (DecoderResult, usize, usize)
    ensures { DecodeStepInto U.encode U.MAX_UNITS pending.old src.now dst.old dst.new last result.0
        result.1 result.2 pending.new }
{
    if pending.is_empty() {
        decode_neutral(pending, src, dst, last)
    } else {
        decode_pending(pending, src, dst, last)
    }
}

#[inline(always)]
fn decode_neutral<U: FromUtf8>(
    pending: &mut Pending,
    src: &[u8],
    dst: &mut [U],
    last: bool,
) -> (DecoderResult, usize, usize)
    requires neutral { pending.old ≡ [] }
    ensures { DecodeStepInto U.encode U.MAX_UNITS [] src.now dst.old dst.new last result.0 result.1
        result.2 pending.new }
{
    let (read, written) = U::convert_up_to_invalid(src, dst);
    if read == src.len() {
        return (DecoderResult::InputEmpty, read, written);
    }
    if dst.len() - written < U::MAX_UNITS {
        return (DecoderResult::OutputFull, read, written);
    }
    let (result, more) = pending.end_before(&src[read..], last);
    (result, read + more, written)
}

#[inline(never)]
fn decode_pending<U: FromUtf8>(
    pending: &mut Pending,
    src: &[u8],
    dst: &mut [U],
    last: bool,
) -> (DecoderResult, usize, usize)
    requires unfinished { IsIncomplete pending.old }
    ensures { DecodeStepInto U.encode U.MAX_UNITS pending.old src.now dst.old dst.new last result.0
        result.1 result.2 pending.new }
{
    if src.is_empty() {
        return (pending.end(last), 0, 0);
    }
    if dst.len() < U::MAX_UNITS {
        return (DecoderResult::OutputFull, 0, 0);
    }
    match pending.resume(src) {
        (Resumed::Ended, read) => (pending.end(last), read, 0),
        (Resumed::Rejected(count), read) => (DecoderResult::Malformed(count as u8, 0), read, 0),
        (Resumed::Complete(bytes, count), read) => {
            let (_, written) = U::convert_up_to_invalid(&bytes[..count], dst);
            let (result, more_read, more_written) = decode_neutral(
                pending,
                &src[read..],
                &mut dst[written..],
                last,
            );
            (result, read + more_read, written + more_written)
        }
    }
}

fn piece_at_end<'a>(end: DecoderResult) -> Piece<'a>
    requires { end ≢ DecoderResult.OutputFull }
    ensures all_read { end ≡ DecoderResult.InputEmpty → result ≡ Piece.InputEmpty }
    ensures malformed { (k second : ℕ) → end ≡ DecoderResult.Malformed k second
        → result ≡ Piece.Malformed k }
{
    match end {
        DecoderResult::InputEmpty => Piece::InputEmpty,
        DecoderResult::Malformed(count, _) => Piece::Malformed(count),
        DecoderResult::OutputFull => unreachable!(),
    }
}

#[tactic(auto, using(std::proofs::lemmas::Bool::both_ways, crate::proofs::PendingLemmas::pending_incomplete))]
#[inline(always)]
pub(crate) fn decode_borrowed<'a>(
    pending: &mut Pending,
    src: &'a [u8],
    last: bool,
) -> (Piece<'a>, usize)
    ensures { BorrowedDecodeStep pending.old src.now last result.0 result.1 pending.new }
{
    if pending.is_empty() {
        borrow_prefix(pending, src, last)
    } else {
        resume_borrowed(pending, src, last)
    }
}

#[inline(always)]
fn borrow_prefix<'a>(pending: &mut Pending, src: &'a [u8], last: bool) -> (Piece<'a>, usize)
    requires neutral { pending.old ≡ [] }
    ensures { BorrowedDecodeStep [] src.now last result.0 result.1 pending.new }
{
    if src.is_empty() {
        return (Piece::InputEmpty, 0);
    }
    if src[0] < ASCII_END {
        if src.len() <= SHORT && is_short(src) {
            let text = unsafe { std::str::from_utf8_unchecked(src) };
            return (Piece::Text(text), src.len());
        }
    } else if let Some(First::Malformed(length)) = First::of_two(src) {
        // a malformed sequence often comes next, and two bytes show most of them
        return (Piece::Malformed(length as u8), length);
    }
    let length = valid_beyond_ascii(src);
    if length > 0 {
        return (
            Piece::Text(unsafe { std::str::from_utf8_unchecked(&src[..length]) }),
            length,
        );
    }
    let (end, read) = pending.end_after_two(src, last);
    (piece_at_end(end), read)
}

#[inline(never)]
fn resume_borrowed<'a>(pending: &mut Pending, src: &'a [u8], last: bool) -> (Piece<'a>, usize)
    requires unfinished { IsIncomplete pending.old }
    ensures { BorrowedDecodeStep pending.old src.now last result.0 result.1 pending.new }
{
    match pending.resume(src) {
        (Resumed::Ended, read) => (piece_at_end(pending.end(last)), read),
        (Resumed::Rejected(count), read) => (Piece::Malformed(count as u8), read),
        (Resumed::Complete(bytes, count), read) => {
            let scalar = decode_utf8_scalar(&bytes[..count]);
            (
                Piece::Char(unsafe { char::from_u32_unchecked(scalar) }),
                read,
            )
        }
    }
}
