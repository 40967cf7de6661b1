//! Finds malformed sequences in UTF-8.

ghost use Rattle.std.specs.Prelude.{◌≡◌, ◌<◌, ◌+◌, ◌↔◌, length, take, drop, IsUtf8};
ghost use Rattle.encoding_runs.specs.MalformedSequences.{IsNextMalformed};
ghost use Rattle.encoding_runs.specs.Malformations.{IsMalformation};
ghost use Rattle.encoding_c.specs.Status.{malformation_number};

use encoding_runs::laws::law_malformations;
use encoding_runs::malformed::{Malformation, next_malformation, next_malformed};

/// The index of a malformed sequence, and its length in bytes.
#[repr(C)]
#[derive(Clone, Copy)]
pub struct EncodingMalformedSequence {
    pub place: usize,
    pub length: usize,
}

/// Returns the first malformed sequence. The bytes before it are well-formed. If all of `src` is well-formed, the
/// length is 0 and the index is the length of `src`.
#[tactic(auto, using(encoding_runs::proofs::MalformedLemmas::next_size, encoding_runs::proofs::MalformedLemmas::next_not_text))]
#[unsafe(no_mangle)]
pub extern "C" fn encoding_text_next_malformed(src: &[u8]) -> EncodingMalformedSequence
    ensures if_some { 0 < result.length → IsNextMalformed src.now result.place result.length }
    ensures if_none { (result.length ≡ 0) ↔ IsUtf8 src.now }
    ensures after_all { result.length ≡ 0 → result.place ≡ length src.now }
{
    match next_malformed(src) {
        Some(part) => EncodingMalformedSequence {
            place: part.place,
            length: part.length,
        },
        None => EncodingMalformedSequence {
            place: src.len(),
            length: 0,
        },
    }
}

/// The index of a malformed sequence, its length in bytes, and the number of its kind.
#[repr(C)]
#[derive(Clone, Copy)]
pub struct EncodingMalformation {
    pub place: usize,
    pub length: usize,
    pub kind: u8,
}

/// The kind of no sequence.
const WELL_FORMED: u8 = 0;

/// Returns the number of a kind.
pub(crate) fn number(kind: Malformation) -> u8
    ensures { result ≡ malformation_number kind }
{
    match kind {
        Malformation::UnexpectedContinuation => 1,
        Malformation::DisallowedByte => 2,
        Malformation::Overlong => 3,
        Malformation::Surrogate => 4,
        Malformation::TooLarge => 5,
        Malformation::Truncated => 6,
        Malformation::IncompleteAtEnd => 7,
    }
}

/// Returns the first malformed sequence, as [`encoding_text_next_malformed`] does, and the number of its kind: 0 if all
/// of `src` is well-formed.
#[tactic(auto, using(encoding_runs::proofs::MalformedLemmas::next_size, encoding_runs::proofs::MalformedLemmas::next_not_text))]
#[unsafe(no_mangle)]
pub extern "C" fn encoding_text_next_malformation(src: &[u8]) -> EncodingMalformation
    ensures if_some { 0 < result.length → IsNextMalformed src.now result.place result.length }
    ensures kind { 0 < result.length → (kind : Malformation)
        → IsMalformation (take result.length (drop result.place src.now))
        (drop (result.place + result.length) src.now) kind
        → result.kind ≡ malformation_number kind }
    ensures if_none { (result.length ≡ 0) ↔ IsUtf8 src.now }
    ensures after_all { result.length ≡ 0 → (result.place ≡ length src.now) × (result.kind ≡ 0) }
{
    law_malformations();
    match next_malformation(src) {
        Some((found, kind)) => EncodingMalformation {
            place: found.place,
            length: found.length,
            kind: number(kind),
        },
        None => EncodingMalformation {
            place: src.len(),
            length: 0,
            kind: WELL_FORMED,
        },
    }
}
