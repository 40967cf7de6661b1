//! The pending bytes of a decoder, and how a call ends that reads no further character. Most calls find nothing
//! pending.
ghost use Rattle.std.specs.Prelude.{◌≡◌, ◌≢◌, ℕ, ◌<◌, ◌≤◌, ◌↔◌, Bool, false, List, [], length, take, drop, IsTrue};
ghost use Rattle.encoding_definitions.specs.Sequence.{IsIncomplete, IsPending};
ghost use Rattle.encoding_definitions.specs.Parts.{BeginsWithNoCharacter};
ghost use Rattle.encoding_text.specs.Decoding.{IsMalformed};

use super::DecoderResult;
use crate::utf_8::first::First;
use std::marker::Model;

/// None, or an incomplete sequence.
#[derive(Drop)]
pub(crate) struct Pending {
    bytes: [u8; 4],
    count: usize,
}

/// What a source makes of an incomplete sequence.
#[derive(Drop)]
pub(crate) enum Resumed {
    /// A longer incomplete sequence: the source ended first.
    Ended,
    /// A well-formed sequence: these bytes, and its length.
    Complete([u8; 4], usize),
    /// A malformed sequence of this length.
    Rejected(usize),
}

impl Model for Pending {
    ghost Value = { List ℕ };

    ghost view = { λ p. take p.count p.bytes };

    ghost invariant = { λ p. (p.count ≤ 3) × IsPending (take p.count p.bytes) };
}

impl Pending {
    ghost use Rattle.encoding_text.specs.Steps.{Resumes};
    ghost use Rattle.encoding_text.specs.Steps.{IsResultAtEnd, IsResultWithoutCharacter};

    pub(crate) fn none() -> Pending
        ensures { result ≡ [] }
    {
        Pending {
            bytes: [0; 4],
            count: 0,
        }
    }

    pub(crate) fn is_empty(&self) -> bool
        ensures empty { IsTrue result ↔ (self.now ≡ []) }
        ensures pending { IsPending self.now }
    {
        self.count == 0
    }

    pub(crate) fn len(&self) -> usize
        ensures length { result ≡ length self.now }
        ensures within { result ≤ 3 }
        ensures pending { IsPending self.now }
    {
        self.count
    }

    #[inline(always)]
    pub(crate) fn bytes(&self) -> ([u8; 4], usize)
        ensures bytes { take result.1 result.0 ≡ self.now }
        ensures count { result.1 ≡ length self.now }
        ensures within { result.1 ≤ 3 }
        ensures pending { IsPending self.now }
    {
        (self.bytes, self.count)
    }

    #[inline(never)]
    pub(crate) fn resume(&mut self, src: &[u8]) -> (Resumed, usize)
        requires unfinished { self.old ≢ [] }
        ensures { Resumes self.old src.now result.0 result.1 self.new }
    {
        let before = self.count;
        let mut bytes = self.bytes;
        let more = src.len().min(bytes.len() - before);
        bytes[before..before + more].copy_from_slice(&src[..more]);
        match First::by_bytes(&bytes[..before + more]) {
            First::Incomplete => {
                *self = Pending {
                    bytes,
                    count: before + more,
                };
                (Resumed::Ended, more)
            }
            First::Malformed(length) => {
                *self = Pending::none();
                (Resumed::Rejected(length), length - before)
            }
            First::Character(length) => {
                *self = Pending::none();
                (Resumed::Complete(bytes, length), length - before)
            }
            First::Ascii => unreachable!(),
        }
    }

    pub(crate) fn end(&mut self, last: bool) -> DecoderResult
        ensures { IsResultAtEnd self.old last result self.new }
    {
        if !last || self.count == 0 {
            return DecoderResult::InputEmpty;
        }
        let count = self.count;
        *self = Pending::none();
        DecoderResult::Malformed(count as u8, 0)
    }

    #[tactic(auto, using(crate::proofs::CallLemmas::not_ascii))]
    #[inline]
    pub(crate) fn end_before(&mut self, rest: &[u8], last: bool) -> (DecoderResult, usize)
        requires neutral { self.old ≡ [] }
        requires not_empty { 0 < length rest.now }
        requires no_character { BeginsWithNoCharacter rest.now }
        ensures { IsResultWithoutCharacter rest.now last result.0 result.1 self.new }
    {
        if let Some(First::Malformed(length)) = First::of_two(rest) {
            return (DecoderResult::Malformed(length as u8, 0), length);
        }
        self.end_after_two(rest, last)
    }

    /// Out of line: most malformed sequences are one byte, and two bytes show them.
    #[tactic(auto, using(crate::proofs::CallLemmas::not_ascii, crate::proofs::FirstLemmas::pending_rest))]
    #[inline(never)]
    pub(crate) fn end_after_two(&mut self, rest: &[u8], last: bool) -> (DecoderResult, usize)
        requires neutral { self.old ≡ [] }
        requires not_empty { 0 < length rest.now }
        requires no_character { BeginsWithNoCharacter rest.now }
        ensures { IsResultWithoutCharacter rest.now last result.0 result.1 self.new }
    {
        match First::by_bytes(rest) {
            First::Malformed(length) => (DecoderResult::Malformed(length as u8, 0), length),
            First::Incomplete => {
                let mut bytes = [0; 4];
                let count = rest.len();
                bytes[..count].copy_from_slice(rest);
                *self = Pending { bytes, count };
                (self.end(last), count)
            }
            First::Ascii => unreachable!(),
            First::Character(_) => unreachable!(),
        }
    }
}
