//! The encoder, which keeps a pending surrogate from one call to the next. A call leaves the rest of `dst` unchanged.
ghost use Rattle.std.specs.Prelude.{◌≡◌, ◌+◌, ◌*◌, ◌≤◌, false, [], ◌∷◌, length, take, drop, encode_utf8, IsTrue};
ghost use Rattle.std.specs.Option.{SomeIff};
ghost use Rattle.std.specs.Str.{chars};
ghost use Rattle.std.specs.Char.Escape.{encode_utf16};
ghost use Rattle.encoding_definitions.specs.Prefixes.{IsLongestFittingPrefix, WritesPrefix};
ghost use Rattle.encoding_definitions.specs.Utf16.{IsHighSurrogate};
ghost use Rattle.encoding_definitions.specs.FirstScalar.{IsFirstScalar};
ghost use Rattle.encoding_text.specs.Encoding.{IsPendingSurrogate, EndsHigh, EncodeStep, TextEncodeStep};

mod counted;

use crate::utf_8::from_utf16::convert_utf16_to_utf8_partial;
use encoding_kernels::scalar::{
    REPLACEMENT_CHARACTER, is_high_surrogate, is_low_surrogate, pair_scalar, utf8_length,
    write_scalar,
};
use std::marker::Model;

/// What ended a call of an encoder.
#[derive(Debug, PartialEq, Eq, Drop)]
pub enum EncoderResult {
    /// All of the source was read, and all of it was written except a pending surrogate. After a last call nothing is
    /// pending.
    InputEmpty,
    /// The next character doesn't fit into the space that is left.
    OutputFull,
}

/// An encoder to UTF-8: Encoding Standard, section 8.1. Contracts see it as the list of its pending code units: none,
/// or the pending surrogate, which is a high surrogate that ended an earlier call.
#[derive(Drop)]
pub struct Utf8Encoder {
    surrogate: Option<u16>,
}

impl Model for Utf8Encoder {
    ghost use Rattle.std.specs.Prelude.{List, ℕ};
    ghost use Rattle.encoding_text.specs.Encoding.{pending_units, IsPendingSurrogate};

    ghost Value = { List ℕ };

    ghost view = { λ e. pending_units e.surrogate };

    ghost invariant = { λ e. IsPendingSurrogate (pending_units e.surrogate) };
}

impl Utf8Encoder {
    /// Returns an encoder with nothing pending.
    pub fn new_inner() -> Utf8Encoder
        ensures { result ≡ [] }
    {
        Utf8Encoder { surrogate: None }
    }

    /// Returns the length in bytes of a destination that is large enough for a call with `u16_length` UTF-16 code
    /// units. `None` if the length exceeds `usize::MAX`.
    pub fn max_buffer_length_from_utf16_without_replacement(
        &self,
        u16_length: usize,
    ) -> Option<usize>
        ensures dst_length { SomeIff result (3 * (u16_length + length self.now) ≤ usize.MAX)
            (3 * (u16_length + length self.now)) }
        ensures surrogate { IsPendingSurrogate self.now }
    {
        u16_length.checked_add(self.pending_count())?.checked_mul(3)
    }

    /// Returns the length in bytes of a destination that is large enough for a call with a text of `byte_length` bytes.
    /// `None` if the length exceeds `usize::MAX`.
    pub fn max_buffer_length_from_utf8_without_replacement(
        &self,
        byte_length: usize,
    ) -> Option<usize>
        ensures dst_length { SomeIff result (byte_length + 3 * length self.now ≤ usize.MAX)
            (byte_length + 3 * length self.now) }
        ensures surrogate { IsPendingSurrogate self.now }
    {
        byte_length.checked_add(3 * self.pending_count())
    }

    fn pending_count(&self) -> usize
        ensures pending_length { result ≡ length self.now }
        ensures surrogate { IsPendingSurrogate self.now }
    {
        match self.surrogate {
            Some(_) => 1,
            None => 0,
        }
    }

    /// Encodes the pending surrogate, if there is one, followed by `src`. Returns what ended the call, how many code
    /// units of `src` it read and how many bytes it wrote. `last` marks the last call.
    ///
    /// A high surrogate that ends a call not marked last becomes pending, since its low surrogate may come in the next
    /// call. Any other unpaired surrogate becomes U+FFFD (Unicode Standard, section 3.9, UTF-16). No character is
    /// written in part. At `OutputFull` with nothing written, nothing is read and the pending surrogate stays pending;
    /// with something written, nothing is pending.
    pub fn encode_from_utf16_raw(
        &mut self,
        src: &[u16],
        dst: &mut [u8],
        last: bool,
    ) -> (EncoderResult, usize, usize)
        ensures call { EncodeStep self.old src.now (length dst.old) last
            result.0 result.1 (take result.2 dst.new) self.new }
        ensures within { result.1 ≤ length src.now }
        ensures unchanged_after { WritesPrefix dst.old dst.new result.2 (take result.2 dst.new) }
        ensures suffices { 3 * (length src.now + length self.old) ≤ length dst.old
            → result.0 ≡ EncoderResult.InputEmpty }
    {
        let Some(high) = self.surrogate else {
            return self.encode_fresh(src, dst, last);
        };
        if src.is_empty() && !last {
            return (EncoderResult::InputEmpty, 0, 0);
        }
        let (scalar, taken) = first_with_pending(high, src);
        if utf8_length(scalar) > dst.len() {
            return (EncoderResult::OutputFull, 0, 0);
        }
        let first = write_scalar(scalar, dst);
        self.surrogate = None;
        let (result, read, written) = self.encode_fresh(&src[taken..], &mut dst[first..], last);
        (result, taken + read, first + written)
    }

    fn encode_fresh(
        &mut self,
        src: &[u16],
        dst: &mut [u8],
        last: bool,
    ) -> (EncoderResult, usize, usize)
        requires fresh { self.old ≡ [] }
        ensures call { EncodeStep [] src.now (length dst.old) last
            result.0 result.1 (take result.2 dst.new) self.new }
        ensures within { result.1 ≤ length src.now }
        ensures unchanged_after { WritesPrefix dst.old dst.new result.2 (take result.2 dst.new) }
    {
        let due = due_length(src, last);
        let (read, written) = convert_utf16_to_utf8_partial(&src[..due], dst);
        if read < due {
            return (EncoderResult::OutputFull, read, written);
        }
        if due < src.len() {
            self.surrogate = Some(src[due]);
        }
        (EncoderResult::InputEmpty, src.len(), written)
    }

    /// Encodes U+FFFD for the pending surrogate, if there is one, and then `src`. Returns what ended the call, how many
    /// bytes of `src` it read and how many bytes it wrote. Whether the call is the last has no effect.
    ///
    /// Writes U+FFFD for a pending surrogate even if `src` is empty; it stays pending only if U+FFFD doesn't fit. No
    /// character is written in part.
    pub fn encode_from_utf8_raw(
        &mut self,
        src: &str,
        dst: &mut [u8],
        _last: bool,
    ) -> (EncoderResult, usize, usize)
        ensures call { TextEncodeStep self.old src.now (length dst.old)
            result.0 result.1 (take result.2 dst.new) self.new }
        ensures within { result.1 ≤ length src.now }
        ensures unchanged_after { WritesPrefix dst.old dst.new result.2 (take result.2 dst.new) }
        ensures suffices { length src.now + 3 * length self.old ≤ length dst.old
            → result.0 ≡ EncoderResult.InputEmpty }
    {
        let Some(_) = self.surrogate else {
            let (result, read) = encode_text(src, dst);
            return (result, read, read);
        };
        if utf8_length(REPLACEMENT_CHARACTER) > dst.len() {
            return (EncoderResult::OutputFull, 0, 0);
        }
        let first = write_scalar(REPLACEMENT_CHARACTER, dst);
        self.surrogate = None;
        let (result, read) = encode_text(src, &mut dst[first..]);
        (result, read, first + read)
    }
}

fn due_length(src: &[u16], last: bool) -> usize
    ensures within { result ≤ length src.now }
    ensures surrogate { IsPendingSurrogate (drop result src.now) }
    ensures last { IsTrue last → result ≡ length src.now }
    ensures waits { last ≡ false → EndsHigh src.now → result + 1 ≡ length src.now }
{
    if last || src.is_empty() {
        return src.len();
    }
    let end = src.len() - 1;
    if is_high_surrogate(src[end]) {
        end
    } else {
        src.len()
    }
}

fn first_with_pending(high: u16, src: &[u16]) -> (u32, usize)
    requires { IsHighSurrogate high }
    ensures scalar { IsFirstScalar (high ∷ src.now) result.0 }
    ensures taken { result.1 + 1 ≡ length (encode_utf16 result.0) }
    ensures within { result.1 ≤ length src.now }
{
    if !src.is_empty() && is_low_surrogate(src[0]) {
        return (pair_scalar(high, src[0]), 1);
    }
    (REPLACEMENT_CHARACTER, 0)
}

fn encode_text(src: &str, dst: &mut [u8]) -> (EncoderResult, usize)
    ensures call { TextEncodeStep [] src.now (length dst.old) result.0 result.1
        (take result.1 dst.new) [] }
    ensures within { result.1 ≤ length src.now }
    ensures unchanged_after { WritesPrefix dst.old dst.new result.1 (take result.1 dst.new) }
{
    let read = copy_text(src, dst);
    if read < src.len() {
        return (EncoderResult::OutputFull, read);
    }
    (EncoderResult::InputEmpty, read)
}

#[tactic(auto, using(crate::proofs::EncoderCallLemmas::text_prefix))]
fn copy_text(src: &str, dst: &mut [u8]) -> usize
    ensures longest { IsLongestFittingPrefix encode_utf8 encode_utf8 (chars src.now)
        (length dst.old) result (take result src.now) }
    ensures within { result ≤ length src.now }
    ensures unchanged_after { WritesPrefix dst.old dst.new result (take result src.now) }
{
    let count = src.floor_char_boundary(dst.len());
    dst[..count].copy_from_slice(&src.as_bytes()[..count]);
    count
}
